// The line of one input.
ghost use Rattle.lines.specs.Line.{LineRight};

// Writes the line that the program rulecheck prints, without its newline, and answers its length; 0 where `out` is too short.
pub fn gc_rulecheck(input: &[u8], out: &mut [u8]) -> u64
    ensures { LineRight input.now out.old out.new result }
{
    lines::line(input, out) as u64
}
