// The tokens of a word that was ended, by their numbers. The word and the number stay two parameters of three
// short functions, of which each takes off what it gives: a struct around both is no plainer.
ghost use Rattle.std.specs.Prelude.{◌≡◌, ◌∷◌, Some};
ghost use Rattle.layout.specs.Tokens.{Text};
ghost use Rattle.grammar.specs.Reading.{Nth};
ghost use Rattle.rules.specs.Rules.{closed};
ghost use Rattle.reader.specs.Pieces.{piece_tokens, behind_break};

use crate::piece::Piece;
use layout::token::Token;
use rules::language::Language;
use rules::place::Move;

// The token of this number of a word, if it has so many: its Break comes first, if it has one.
pub(crate) fn token_of<L: Language>(piece: Piece, word: &[u8], number: u32) -> Option<Token<&[u8]>>
    ensures { Nth (piece_tokens L.Language.rules piece word.now) number result }
{
    match piece.lead {
        None => behind_break::<L>(piece.step, word, number),
        Some(lead) => {
            if number == 0 {
                return Some(Token::Break(lead));
            }
            behind_break::<L>(piece.step, word, number - 1)
        }
    }
}

// The token of this number behind the Break: the Opening comes first, if the word opens a bracket.
fn behind_break<L: Language>(step: Move, word: &[u8], number: u32) -> Option<Token<&[u8]>>
    ensures { Nth (behind_break L.Language.rules step word.now) number result }
{
    match step {
        Move::Within(_) | Move::Closes => text_or_ending::<L>(step, word, number),
        Move::Opens(_) => {
            if number == 0 {
                return Some(Token::Opening(L::block()));
            }
            text_or_ending::<L>(step, word, number - 1)
        }
    }
}

// The Text, and then the Ending, if the word closes a bracket.
fn text_or_ending<L: Language>(step: Move, word: &[u8], number: u32) -> Option<Token<&[u8]>>
    ensures { Nth (Text (L.Language.rules.text word.now) ∷ closed (Some step)) number result }
{
    match (number, step) {
        (0, _) => Some(Token::Text(L::text(word))),
        (1, Move::Closes) => Some(Token::Ending),
        _ => None,
    }
}
