ghost use Rattle.std.specs.Prelude.{◌≡◌, ◌==◌, ◌<◌, ◌++◌, ◌∷◌, option_map, position, IfSome, IfNone};
ghost use Rattle.dubp_atoms.specs.Reading.{Lacks, cut_at};

fn place_of(text: &[u8], byte: u8) -> Option<usize>
    ensures { result ≡ position (λ c. c == byte) text.now }
{
    text.iter().position(|c| *c == byte)
}

#[tactic(auto, using(std::proofs::lemmas::List::take_rest))]
fn parts(text: &[u8], byte: u8) -> Option<(&[u8], &[u8])>
    ensures { option_map (λ p. (p.0.now, p.1.now)) result ≡ cut_at byte text.now }
{
    let i = place_of(text, byte)?;
    Some((&text[..i], &text[i + 1..]))
}

/// What is before the first such byte, and what is after it.
pub fn cut(text: &[u8], byte: u8) -> Option<(&[u8], &[u8])>
    requires { 0 < byte }
    ensures found { IfSome result (λ p. Lacks byte p.0.now × (text.now ≡ p.0.now ++ byte ∷ p.1.now)) }
    ensures none { IfNone result (Lacks byte text.now) }
    ensures exact { option_map (λ p. (p.0.now, p.1.now)) result ≡ cut_at byte text.now }
{
    parts(text, byte)
}
