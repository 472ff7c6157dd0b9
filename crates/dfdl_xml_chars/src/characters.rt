// The characters that XML allows.
#![tactic(auto)]

ghost use Rattle.std.specs.Prelude.{◌≡◌};
ghost use Rattle.dfdl_xml_chars.specs.Characters.{is_allowed as allows};

/// XML allows the character in a document.
#[tactic(auto, unfolding(crate::specs::Characters::is_allowed, crate::specs::Characters::char_rows))]
pub fn is_allowed(c: char) -> bool
    ensures { result ≡ allows c }
{
    match c {
        '\t'
        | '\n'
        | '\r'
        | ' '..='\u{D7FF}'
        | '\u{E000}'..='\u{FFFD}'
        | '\u{1_0000}'..='\u{10_FFFF}' => true,
        _ => false,
    }
}
