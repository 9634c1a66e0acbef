// Whether a word spells a name, and what it means by a table of names.
ghost use Rattle.std.specs.Prelude.{◌≡◌, map, eqb};
ghost use Rattle.std.specs.List.{list_all, zip};
ghost use Rattle.std.specs.Char.{to_ascii_uppercase};
ghost use Rattle.words.specs.Text.{spells, named};

// Whether a word spells a name that is written in capitals. `eq_ignore_ascii_case` would also take a name in small letters.
#[tactic(auto, using(crate::proofs::Spelled::other_length))]
pub fn spells(word: &[u8], name: &[u8]) -> bool
    ensures { result ≡ spells name.now word.now }
{
    word.len() == name.len() && beside(word, name)
}

// Whether each byte in capitals is the name's at its place.
fn beside(word: &[u8], name: &[u8]) -> bool
    ensures { result ≡ list_all (λ e. eqb (to_ascii_uppercase e.0) e.1) (zip word.now name.now) }
{
    word.iter()
        .zip(name)
        .all(|(b, n)| b.to_ascii_uppercase() == *n)
}

// What the first entry of a table means whose name a word spells.
pub fn named<A: Copy>(word: &[u8], table: &[(&[u8], A)]) -> Option<A>
    ensures { result ≡ named (map (λ e. (e.0.now, e.1)) table.now) word.now }
{
    table
        .iter()
        .find(|(name, _)| spells(word, name))
        .map(|(_, meaning)| *meaning)
}
