// Lines of words, each of which stands for one call or for several ones.
use crate::fault::CaseFault;
use shim_base::NoMemory;
use std::alloc::Global;

const MOST_CALLS: usize = 1000;

/// Whom words ask.
#[derive(Clone, Copy)]
pub enum Asked {
    Tool,
    /// What lies below the tool.
    Inside,
}

// The choices that a word offers: `{1|2}` and `1|2` have two, `{}` has the empty word, and a word without bar and
// braces has itself. A word that isn't in braces may have no brace, and at least one byte.
fn choices_of(alloc: Global, word: &str) -> Result<Vec<String>, CaseFault> {
    let inner = word
        .strip_prefix('{')
        .and_then(|rest| rest.strip_suffix('}'));
    if inner.is_none() && (word.is_empty() || word.contains('{') || word.contains('}')) {
        return Err(CaseFault::BadWords);
    }
    let mut choices = Vec::new(alloc);
    for choice in inner.unwrap_or(word).split('|') {
        choices.push(String::from_str(alloc, choice)?)?;
    }
    Ok(choices)
}

/// Words with the choices of each. Each way to choose is a call.
#[derive(Drop)]
pub struct CallLine {
    pub asked: Asked,
    words: Vec<Vec<String>>,
    count: usize,
}

impl CallLine {
    pub fn new(alloc: Global, asked: Asked, line: &str) -> Result<CallLine, CaseFault> {
        let mut words = Vec::new(alloc);
        let mut count = 1usize;
        for word in line.split(' ').filter(|_| !line.is_empty()) {
            let choices = choices_of(alloc, word)?;
            count = count.saturating_mul(choices.len());
            words.push(choices)?;
        }
        if count > MOST_CALLS {
            return Err(CaseFault::ManyCalls);
        }
        Ok(CallLine {
            asked,
            words,
            count,
        })
    }

    /// How many calls the line stands for.
    pub fn count(&self) -> usize {
        self.count
    }

    /// The program's own name, followed by the words of the call of this number, counted from 0.
    pub fn words(&self, alloc: Global, number: usize) -> Result<Vec<String>, NoMemory> {
        let mut left = number;
        let mut words = Vec::new(alloc);
        words.push(String::from_str(alloc, "shim")?)?;
        for choices in self.words.iter() {
            let at = left.checked_rem(choices.len()).unwrap_or(0);
            left = left.checked_div(choices.len()).unwrap_or(0);
            if let Some(word) = choices.get(at) {
                words.push(word.clone()?)?;
            }
        }
        Ok(words)
    }
}
