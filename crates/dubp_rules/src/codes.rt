ghost use Rattle.std.specs.Prelude.{◌≡◌, ◌≤◌, Some, IfSome, length, find};
ghost use Rattle.dubp_rules.specs.Table.{code_text, names, table_rules};

use crate::order::{ORDER, RULES};
use crate::rule::Rule;
use arrayvec::ArrayVec;

const CODES: [&[u8]; RULES] = [
    b"X01", b"P01", b"X02", b"X07", b"L01", b"L02", b"L03", b"L04", b"L05", b"L06", b"L07", b"L08",
    b"L09", b"L10", b"L11", b"L12", b"L13", b"L14", b"L15", b"L16", b"L17", b"L18", b"L19", b"L20",
    b"L21", b"L22", b"L23", b"L24", b"G51", b"G52", b"G53", b"G49", b"G101", b"X03", b"X04",
    b"X08", b"G50", b"G54", b"G55", b"G56", b"G57", b"G58", b"G59", b"G60", b"G61", b"G62", b"X06",
    b"G63", b"G73", b"G74", b"G64", b"G75", b"G108", b"G82", b"G78", b"G81", b"G80", b"G77",
    b"G83", b"G84", b"G65", b"G66", b"G67", b"G68", b"G69", b"G70", b"G71", b"G72", b"G79", b"G76",
    b"G85", b"G86", b"X05", b"G103", b"G87", b"G88", b"G89", b"G90",
];

/// The code of a rule as a text.
fn text_of(rule: Rule) -> &'static [u8]
    ensures text { result.now ≡ code_text rule }
    ensures short { length result.now ≤ 4 }
{
    CODES[rule as usize]
}

/// The code of a rule, which has three or four characters. It takes no memory.
pub fn code(rule: Rule) -> ArrayVec<u8, 4>
    ensures { result.items ≡ code_text rule }
{
    let mut code = ArrayVec::new();
    for byte in text_of(rule) {
        code.push(*byte);
    }
    code
}

/// The rule that a text is the code of, and None where it is the code of none. It takes no memory.
pub fn of_code(text: &[u8]) -> Option<Rule>
    ensures found { IfSome result (λ rule. text.now ≡ code_text rule) }
    ensures only { (rule : Rule) → text.now ≡ code_text rule → result ≡ Some rule }
{
    named(text)
}

/// The first rule of the table that the text names.
fn named(text: &[u8]) -> Option<Rule>
    ensures { result ≡ find (names text.now) table_rules }
{
    ORDER.iter().copied().find(|rule| text == text_of(*rule))
}
