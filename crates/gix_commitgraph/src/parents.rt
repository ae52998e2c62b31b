//! The parents of a row, read in place.
ghost use Rattle.std.specs.Prelude.{◌≡◌, drop};
ghost use Rattle.std.specs.Iterator.{YieldsFirst, item_count};
ghost use Rattle.gix_commitgraph.specs.Parents.{answer_of_word};
ghost use Rattle.gix_commitgraph.specs.PackedReading.{words_of};

use super::check::{FAULT, FLAG, NO_PARENT};
use super::{ParentFault, Position};
use std::marker::Model;

/// The places of a row in order: the positions of the parents, or faults.
#[derive(Debug, Drop)]
pub struct Parents<'a> {
    first: Option<u32>,
    second: Option<u32>,
    list: &'a [u8],
}

impl<'a> Model for Parents<'a> {
    ghost use Rattle.std.specs.Prelude.{List, ◌++◌};
    ghost use Rattle.gix_commitgraph.specs.Parents.{Answer, answers_of_option, answers_of_list};
    ghost use Rattle.gix_commitgraph.specs.PackedReading.{words_of};

    ghost Value = { List Answer };

    ghost view = { λ p. answers_of_option p.first ++ (answers_of_option p.second ++ answers_of_list (words_of p.list.now)) };
}

fn answer(word: u32) -> Result<Position, ParentFault>
    ensures { result ≡ answer_of_word word }
{
    if word == FAULT {
        Err(ParentFault)
    } else {
        Ok(Position(word))
    }
}

/// The overflow words from a word on.
fn words_from(words: &[u8], from: u32) -> &[u8]
    ensures { words_of result.now ≡ drop from (words_of words.now) }
{
    let at = 4 * from as usize;
    if at <= words.len() {
        words.split_at(at).1
    } else {
        &[]
    }
}

impl<'a> Parents<'a> {
    ghost use Rattle.gix_commitgraph.specs.Parents.{answers_of_words};

    /// The parents that two parent words and the overflow words say.
    #[tactic(auto, unfolding(crate::specs::Parents::answers_of_words))]
    pub(super) fn new(first: u32, second: u32, words: &'a [u8]) -> Parents<'a>
        ensures { result ≡ answers_of_words first second (words_of words.now) }
    {
        let list = if second < FLAG {
            &[]
        } else {
            words_from(words, second - FLAG)
        };
        Parents {
            first: if first == NO_PARENT {
                None
            } else {
                Some(first)
            },
            second: if second < NO_PARENT {
                Some(second)
            } else {
                None
            },
            list,
        }
    }
}

impl<'a> Iterator for Parents<'a> {
    type Item = Result<Position, ParentFault>;

    ghost next_gives = { YieldsFirst (λ s. s) };

    ghost remaining = { item_count (λ s. s) };

    fn next(&mut self) -> Option<Result<Position, ParentFault>> {
        if let Some(word) = self.first.take() {
            return Some(answer(word));
        }
        if let Some(word) = self.second.take() {
            return Some(answer(word));
        }
        let [a, b, c, d, rest @ ..] = self.list else {
            self.list = &[];
            return None;
        };
        let word = u32::from_be_bytes([*a, *b, *c, *d]);
        if word < FLAG {
            self.list = rest;
            Some(answer(word))
        } else {
            self.list = &[];
            Some(answer(word - FLAG))
        }
    }
}
