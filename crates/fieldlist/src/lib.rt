// The list of fields of a written script: its rows, or the first bad one and what is wrong with it.
#![tactic(auto)]

pub mod fault;
pub mod names;
pub mod parts;

ghost use Rattle.std.specs.Prelude.{◌≡◌, ◌<◌, map, IfSome};
ghost use Rattle.laws.specs.Options.{math_option};
ghost use Rattle.grammar.specs.FieldList.{word_of, position_of};
ghost use Rattle.fieldlist.specs.Answer.{entries_of, RightRows, Answers};

use crate::fault::RowFault;
use crate::names::{Span, name_index};
use crate::parts::row_part;

const MOST: usize = 16;

/// The rows of a list that is right: `count` of them, the i-th with its name and its code at place i. The places behind them are 0.
#[derive(Clone, Copy)]
pub struct FieldRows {
    pub count: usize,
    pub names: [Span; 16],
    pub codes: [usize; 16],
}

/// The first bad row, counted from 1, and what is wrong with it.
#[derive(Clone, Copy)]
pub struct BadRow {
    pub row: usize,
    pub fault: RowFault,
}

/// The rows of a list, if it is right.
pub fn rows(list: &[u8]) -> Result<FieldRows, BadRow>
    ensures { Answers list.now result }
{
    let mut names = [Span { from: 0, to: 0 }; 16];
    let mut codes = [0; 16];
    let mut count: usize = 0;
    let mut last: usize = 0;
    let mut at: usize = 0;
    while at < list.len() {
        if count == MOST {
            return Err(BadRow {
                row: MOST + 1,
                fault: RowFault::NoRoom,
            });
        }
        match row_part(list, &names[..count], last, at) {
            Err(fault) => {
                return Err(BadRow {
                    row: count + 1,
                    fault,
                });
            }
            Ok(row) => {
                names[count] = Span {
                    from: at,
                    to: row.end,
                };
                codes[count] = row.code;
                last = row.code;
                at = row.next;
                count += 1;
            }
        }
    }
    Ok(FieldRows {
        count,
        names,
        codes,
    })
}

/// The place, from 0, of the row that has this name.
pub fn index_of(list: &[u8], rows: &FieldRows, word: &[u8]) -> Option<usize>
    requires { RightRows list.now rows.now }
    ensures place { math_option result ≡ position_of word.now (map word_of (entries_of list.now rows.now)) }
    ensures within { IfSome result (λ i. i < rows.now.count) }
{
    name_index(list, &rows.names[..rows.count], word)
}
