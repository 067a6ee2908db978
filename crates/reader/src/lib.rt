// The card reader (its form: SPEC 12.5): it holds the bytes that are lent and the place of a line in them. The rule's
// text is a part of these bytes (SPEC 10.4): none is copied.
#![tactic(auto)]

ghost use Rattle.std.specs.Prelude.{◌≡◌};
ghost use Rattle.reader.specs.Part.{rule_from};

// The lent bytes, and the place in them where the line `watch=` stands.
#[derive(Clone, Copy)]
struct Reader<'a> {
    bytes: &'a [u8],
    at: usize,
}

impl<'a> Reader<'a> {
    // The rule text, lent for as long as the bytes are: what stands after `watch=`, up to the line's end; nothing past
    // the end of the bytes.
    fn rule_text(self) -> &'a [u8]
        ensures { result.now ≡ rule_from self.entry.bytes.now self.entry.at }
    {
        let line = self.bytes.get(self.at..).unwrap_or(&[]);
        let text = line.get(cards::RULE_HEAD.len()..).unwrap_or(&[]);
        &text[..lists::line_length(text, 0)]
    }
}

// The rule text of the line `watch=` at a place of s: with a plain slice, so that callers hold no reader.
pub fn rule_part(s: &[u8], at: usize) -> &[u8]
    ensures { result.now ≡ rule_from s.now at }
{
    Reader { bytes: s, at }.rule_text()
}
