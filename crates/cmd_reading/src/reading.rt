ghost use Rattle.std.specs.Prelude.{◌≡◌, map, IfOk, IsErrOf, Some, IsSome, option_map};
ghost use Rattle.std.specs.List.{All};
ghost use Rattle.clap.specs.Words.{first_value, found_of};
ghost use Rattle.cmd_reading.specs.Form.{AllText, form_of, IsForm};
ghost use Rattle.cmd_reading.specs.Meaning.{text_at, texts_read, MayBeMeant, Says};

use crate::building::{WordsStop, form_matches};
use clap::ArgMatches;
use std::alloc::Global;

/// The texts that words of a form give, in the order of the lists of names.
#[derive(Drop)]
pub struct ReadWords<'a> {
    pub places: Vec<&'a str>,
    pub needed: Vec<&'a str>,
    pub free: Vec<Option<&'a str>>,
}

impl<'a> ReadWords<'a> {
    /// The text at the place of this number, counted from 0.
    pub fn place(&self, i: usize) -> Option<&'a str>
        ensures { option_map (λ t. t.now) result ≡ text_at i (texts_read self.now).places }
    {
        self.places.get(i).copied()
    }

    /// The text of this one of the options that must stand.
    pub fn needed(&self, i: usize) -> Option<&'a str>
        ensures { option_map (λ t. t.now) result ≡ text_at i (texts_read self.now).needed }
    {
        self.needed.get(i).copied()
    }

    /// The text of this one of the options that may stand, if it is among the words.
    pub fn free(&self, i: usize) -> Option<&'a str>
        ensures { option_map (λ t. t.now) result ≡ text_at i (texts_read self.now).free }
    {
        match self.free.get(i) {
            Some(text) => *text,
            None => None,
        }
    }
}

/// Reads words that are to have this form: `places` name the positionals, `needed` the options that
/// must stand and `free` those that may, without their dashes. Each option takes one text, stands at
/// most once, and anywhere.
///
/// `Usage` says that the words have not the form, or that one of their texts begins as an option
/// does: such words are meant by no command whose texts are names of files and numbers. `Memory`
/// says that memory was refused, in making ready as in reading.
pub fn read_words<'a>(
    alloc: Global,
    places: &'a [&'a str],
    needed: &'a [&'a str],
    free: &'a [&'a str],
    words: &'a [&'a str],
) -> Result<ReadWords<'a>, WordsStop>
    requires names { IsForm (form_of places.now needed.now free.now) }
    requires text { AllText (map (λ s. s.now) words.now) }
    ensures ok { IfOk result (Says (form_of places.entry.now needed.entry.now free.entry.now) (map (λ s. s.now) words.entry.now)) }
    ensures usage { IsErrOf result WordsStop.Usage
        → MayBeMeant (form_of places.entry.now needed.entry.now free.entry.now) (map (λ s. s.now) words.entry.now) → ⊥ }
{
    let matches = form_matches(alloc, places, needed, free, words)?;
    Ok(ReadWords {
        places: all_given(alloc, &matches, places)?,
        needed: all_given(alloc, &matches, needed)?,
        free: some_given(alloc, &matches, free)?,
    })
}

// The texts of these names, all of which are there.
fn all_given<'a>(
    alloc: Global,
    matches: &ArgMatches<'a>,
    ids: &[&str],
) -> Result<Vec<&'a str>, WordsStop>
    requires { All (λ id. IsSome (first_value (found_of matches.now) id.now)) ids.now }
    ensures ok { IfOk result (λ v. map (λ t. Some t.now) v.items ≡ map (λ id. first_value (found_of matches.now) id.now) ids.now) }
    ensures usage { IsErrOf result WordsStop.Usage → ⊥ }
{
    let mut texts = Vec::new(alloc);
    for id in ids {
        if texts.push(given(matches, id)).is_err() {
            return Err(WordsStop::Memory);
        }
    }
    Ok(texts)
}

// The texts of these names, where they are there.
fn some_given<'a>(
    alloc: Global,
    matches: &ArgMatches<'a>,
    ids: &[&str],
) -> Result<Vec<Option<&'a str>>, WordsStop>
    ensures ok { IfOk result (λ v. map (option_map (λ t. t.now)) v.items ≡ map (λ id. first_value (found_of matches.now) id.now) ids.now) }
    ensures usage { IsErrOf result WordsStop.Usage → ⊥ }
{
    let mut texts = Vec::new(alloc);
    for id in ids {
        if texts.push(matches.get_str(id)).is_err() {
            return Err(WordsStop::Memory);
        }
    }
    Ok(texts)
}

// A text that is there.
fn given<'a>(matches: &ArgMatches<'a>, id: &str) -> &'a str
    requires { IsSome (first_value (found_of matches.now) id.now) }
    ensures { first_value (found_of matches.now) id.now ≡ Some result.now }
{
    matches.get_str(id).unwrap()
}
