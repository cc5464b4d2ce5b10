// The grammar of S-expressions as code: what each byte is, where a word may stand, and the tokens around it.
//
// Every answer is that of the rules of `sexpr_language`, which are lawful and read exactly that language.
// `classes` has the class of each byte, and `sexpr` the answers by class.
#![tactic(auto)]

pub mod classes;
pub mod sexpr;
