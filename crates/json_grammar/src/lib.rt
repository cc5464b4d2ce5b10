// JSON as code: what each byte is, where a word may stand, and the tokens around it.
//
// Every answer is that of the rules of `json_language`, which are lawful and read exactly that language.
// `classes` has the class of each byte; `numbers`, `strings` and `literals` have how words go on, `places` where they
// may stand; `json` puts these together.
#![tactic(auto)]

pub mod classes;
pub mod json;
pub mod literals;
pub mod numbers;
pub mod places;
pub mod strings;
