// What a reading needs beside the text. What it means stands in specs/; reader and writer have the code.
#![tactic(auto)]

use model::Grammar;

// What a reading needs beside the text: the grammar, how many lines there may be, and how many of them with a circuit's word.
#[derive(Clone, Copy)]
pub struct Context {
    pub grammar: Grammar,
    pub limit: usize,
    pub keptlimit: usize,
}
