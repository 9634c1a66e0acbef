// What is wrong with the program's arguments.
use crate::saying;
use notices::trouble;
use options::Trouble;

// What is wrong with the arguments is said.
pub fn complain<S: Print>(to: &S, wrong: Trouble) {
    saying::say(to, |text| trouble(text, wrong));
}
