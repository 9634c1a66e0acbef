// The lines of things that are counted, one after the other.
ghost use Rattle.std.specs.Prelude.{◌<◌, ℕ, List};
ghost use Rattle.text.specs.Says.{Says};
ghost use Rattle.summary.specs.Summary.{lines, PutsEach};

use text::Text;

// The lines of so many things, each put by a function.
pub(crate) fn put_lines<F: Fn(&mut Text, usize)>(text: &mut Text, n: usize, put: F)
    requires { (k : ℕ) → k < n → (t : _) → F.pre put t k }
    ensures { (line : ℕ → List ℕ) → PutsEach (λ old k new. F.post put old k tt new) line n → Says (lines line 0 n) text.old text.new }
{
    for i in 0..n {
        put(text, i);
    }
}
