ghost use Rattle.std.specs.Prelude.{◌≡◌, map, IfOk, IsErrOf};
ghost use Rattle.cmd_words.specs.Words.{texts};
ghost use Rattle.cmd_reading.specs.Form.{AllText};

use crate::building::WordsStop;
use std::alloc::Global;

/// The words as texts. `Usage` says that one of them is not UTF-8.
pub fn texts_of<'a>(alloc: Global, words: &'a [Vec<u8>]) -> Result<Vec<&'a str>, WordsStop>
    ensures same { IfOk result (λ v. map (λ s. s.now) v.items ≡ texts words.entry.now) }
    ensures text { IfOk result (λ v. AllText (map (λ s. s.now) v.items)) }
    ensures usage { IsErrOf result WordsStop.Usage → AllText (texts words.entry.now) → ⊥ }
{
    let mut texts = Vec::new(alloc);
    for word in words {
        let Ok(text) = std::str::from_utf8(word.as_slice()) else {
            return Err(WordsStop::Usage);
        };
        if texts.push(text).is_err() {
            return Err(WordsStop::Memory);
        }
    }
    Ok(texts)
}
