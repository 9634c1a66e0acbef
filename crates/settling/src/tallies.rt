// Pulses by block, counted from event words.
ghost use Rattle.std.specs.Prelude.{◌≡◌, ◌<◌, ◌/◌, [], ◌∷◌, IfSome};
ghost use Rattle.cell.specs.Cell.{page_bytes};
ghost use Rattle.control.specs.Blocks.{blocks, block_of};
ghost use Rattle.settle.specs.Words.{address_in};
ghost use Rattle.settle.specs.Tallies.{counted, tallied};
ghost use Rattle.settling.specs.Kinds.{kind_number};

use crate::EventKind;
use cell::PAGE;
use control::blocks::{BLOCKS, block_of};
use settle::event_words::{address_in, kind_in};
use settle::tally::Tally;

// The block in which the address of a word lies.
#[tactic(auto, using(control::proofs::Places::block_small))]
fn word_block(word: u64) -> Option<usize>
    ensures told { result ≡ block_of (address_in word / page_bytes) }
    ensures inside { IfSome result (λ block. block < blocks) }
{
    block_of(address_in(word) as usize / PAGE)
}

// One word is counted, if it is of the kind and its address lies in a block.
#[tactic(auto, using(settle::proofs::Tallied::one_word))]
fn count_word(counts: &mut [u64; BLOCKS], kind: EventKind, word: u64)
    ensures { counts.new ≡ counted (kind_number kind) (word ∷ []) counts.old }
{
    if EventKind::try_from(kind_in(word)) == Ok(kind) {
        if let Some(block) = word_block(word) {
            counts[block] = counts[block].saturating_add(1);
        }
    }
}

// The counts after the words of a kind.
fn counted(counts: [u64; BLOCKS], kind: EventKind, words: &[u64]) -> [u64; BLOCKS]
    ensures { result ≡ counted (kind_number kind) words.now counts }
{
    let mut all = counts;
    for word in words {
        count_word(&mut all, kind, *word);
    }
    all
}

// The tally after the end events among some words.
#[tactic(auto, unfolding(settle::specs::Tallies::tallied))]
pub fn tallied(tally: Tally, words: &[u64]) -> Tally
    ensures { result ≡ tallied tally words.now }
{
    Tally {
        completed: counted(tally.completed, EventKind::Completed, words),
        interrupted: counted(tally.interrupted, EventKind::Interrupted, words),
    }
}
