// Lines of a text, for the test programs.
#![tactic(auto)]

ghost use Rattle.std.specs.Prelude.{◌≡◌, ◌+◌, ◌≤◌, min, length};
ghost use Rattle.lists.specs.Line.{line_from};

// The end of the line that starts at `from`: its byte 10, or the end of the text.
pub fn line_end(s: &[u8], from: usize) -> usize
    requires { from ≤ length s.now }
    ensures { (result ≡ from + length (line_from s.now from)) × (result ≤ length s.now) }
{
    from + lists::line_length(s, from)
}

// The start of the line after the one that ends at `end`, or the end of the text.
pub fn next_line(s: &[u8], end: usize) -> usize
    requires { end ≤ length s.now }
    ensures { result ≡ min (end + 1) (length s.now) }
{
    s.len().min(end + 1)
}
