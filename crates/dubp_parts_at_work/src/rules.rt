use dubp_rules::{Rule, code, first_unsuited, of_code, place, table, try_first_unsuited};

// A number, and the first of five checks that it does not suit, or the number where a check refuses it.
const UNSUITED: [(u8, Result<Option<Rule>, u8>); 8] = [
    (3, Ok(Some(Rule::X01))),
    (102, Ok(Some(Rule::P01))),
    (90, Ok(Some(Rule::X02))),
    (40, Ok(Some(Rule::X07))),
    (18, Ok(Some(Rule::L01))),
    (8, Ok(None)),
    (201, Ok(Some(Rule::X01))),
    (202, Err(202)),
];

// Whether the checks name this rule, those that refuse no number too.
fn is_named(n: u8, found: Result<Option<Rule>, u8>) -> bool {
    try_first_unsuited(n) == found && (found.is_err() || Ok(first_unsuited(n)) == found)
}

// Texts, and the rules whose codes they are.
const CODES: [(&[u8], Option<Rule>); 9] = [
    (b"G90", Some(Rule::G90)),
    (b"G108", Some(Rule::G108)),
    (b"W01", None),
    (b"G91", None),
    (b"", None),
    (b"g90", None),
    (b"G9", None),
    (b"G10", None),
    (b"G900", None),
];

// Whether the table has a rule of this code at its place.
fn has(place: usize, text: &[u8]) -> bool {
    place < 78 && code(table().at(place)).as_slice() == text
}

#[test]
fn the_first_failing_check_is_named(rt: HostRuntime) {
    for (n, found) in &UNSUITED {
        assert!(rt; is_named(*n, *found));
    }
}

#[test]
fn rules_have_codes(rt: HostRuntime) {
    for (text, rule) in &CODES {
        assert!(rt; of_code(text) == *rule);
    }
    assert!(rt; has(0, b"X01") && has(77, b"G90") && place(Rule::G108) == 52);
}
