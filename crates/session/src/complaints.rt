// What a step of a run said is written, and what it complained of is put into words.
use course::{Complaint, Noted};
use slices::{first, part};
use telling::Outlets;
use telling::saying::{say_fault, say_look_refused, say_refusal};
use words::Word;

// A complaint about a line quotes it.
fn complain<S: Print>(says: &S, go_on: bool, line: &[u8], complaint: Complaint) {
    match complaint {
        Complaint::Refused(number, refusal) => say_refusal(says, number, refusal),
        Complaint::Unseen(number, refusal) => say_look_refused(says, number, refusal),
        Complaint::Wrong(number, fault) => {
            let Word { from, to } = fault.place;
            let word = part(line, from, to);
            say_fault(says, number, from, word, fault.reason, go_on)
        }
    }
}

pub fn tell<R: Print, S: Print>(
    outlets: Outlets<R, S>,
    go_on: bool,
    out: &[u8],
    noted: Noted,
    line: &[u8],
) {
    if 0 < noted.end {
        let _ = outlets.rt.write_all(first(out, noted.end));
    }
    if let Some(complaint) = noted.complaint {
        complain(outlets.says, go_on, line, complaint);
    }
}
