// Single tokens. Each is judged before the next is read.
ghost use Rattle.std.specs.Prelude.{◌≡◌};
ghost use Rattle.reader.specs.Cursor.{state, Gives, Same};
ghost use Rattle.reader.specs.Tokens.{token, ahead, exactly, word, mark, keyword, number, comma, heading, named, beginning, binder, ending};

use crate::tables::Reader;
use rows::ProcessKind;
use scanning::{Head, ListingFault, first_of, head_of, spell};
use words::{Mark, Span, Token};

impl Reader<'_> {
    // The next token.
    pub(crate) fn take(&mut self) -> Result<Span, ListingFault>
        ensures gives { Gives (token (state self.old)) result (state self.new) }
        ensures same { Same self.new self.old }
    {
        let found = words::next_token(self.text, self.at)?;
        self.at = found.end;
        Ok(found)
    }

    // The next token, which is read only if it is the word `w`.
    #[tactic(auto, unfolding(crate::specs::Tokens::ahead))]
    pub(crate) fn ahead(&mut self, w: &[u8]) -> Result<Option<Span>, ListingFault>
        ensures gives { Gives (ahead w.now (state self.old)) result (state self.new) }
        ensures same { Same self.new self.old }
    {
        let found = words::next_token(self.text, self.at)?;
        if spell(self.text, found) == w {
            self.at = found.end;
            return Ok(Some(found));
        }
        Ok(None)
    }

    // The token `t`.
    fn exactly(&mut self, t: Token) -> Result<Span, ListingFault>
        ensures gives { Gives (exactly t (state self.old)) result (state self.new) }
        ensures same { Same self.new self.old }
    {
        let found = self.take()?;
        if found.token == t {
            Ok(found)
        } else {
            Err(ListingFault::Grammar(found.start))
        }
    }

    pub(crate) fn word(&mut self) -> Result<Span, ListingFault>
        ensures gives { Gives (word (state self.old)) result (state self.new) }
        ensures same { Same self.new self.old }
    {
        self.exactly(Token::Word)
    }

    // The mark `m`. Answers its place.
    pub(crate) fn mark(&mut self, m: Mark) -> Result<usize, ListingFault>
        ensures gives { Gives (mark m (state self.old)) result (state self.new) }
        ensures same { Same self.new self.old }
    {
        let found = self.exactly(Token::Single(m))?;
        Ok(found.start)
    }

    // The grammar's word `w`. Answers its place.
    pub(crate) fn keyword(&mut self, w: &[u8]) -> Result<usize, ListingFault>
        ensures gives { Gives (keyword w.now (state self.old)) result (state self.new) }
        ensures same { Same self.new self.old }
    {
        let found = self.take()?;
        if spell(self.text, found) == w {
            Ok(found.start)
        } else {
            Err(ListingFault::Grammar(found.start))
        }
    }

    // A number. Answers its value.
    pub(crate) fn number(&mut self) -> Result<u16, ListingFault>
        ensures gives { Gives (number (state self.old)) result (state self.new) }
        ensures same { Same self.new self.old }
    {
        let found = self.take()?;
        match found.token {
            Token::Number(value) => Ok(value),
            _ => Err(ListingFault::Grammar(found.start)),
        }
    }

    // Whether a comma comes, after which there is more, and not the mark that ends a list.
    #[tactic(auto, unfolding(crate::specs::Tokens::comma))]
    pub(crate) fn comma(&mut self, stop: Mark) -> Result<bool, ListingFault>
        ensures gives { Gives (comma stop (state self.old)) result (state self.new) }
        ensures same { Same self.new self.old }
    {
        let found = self.take()?;
        if found.token == Token::Single(stop) {
            return Ok(false);
        }
        if found.token == Token::Single(Mark::Comma) {
            return Ok(true);
        }
        Err(ListingFault::Grammar(found.start))
    }

    // The first word of a term, and what it says.
    #[tactic(auto, unfolding(crate::specs::Tokens::heading))]
    pub(crate) fn heading(&mut self) -> Result<(Head, Span), ListingFault>
        ensures gives { Gives (heading (state self.old)) result (state self.new) }
        ensures same { Same self.new self.old }
    {
        let word = self.word()?;
        let head = head_of(spell(self.text, word)).ok_or(ListingFault::Grammar(word.start))?;
        Ok((head, word))
    }

    // The first token of a process, and which process begins so.
    #[tactic(auto, unfolding(crate::specs::Tokens::beginning))]
    pub(crate) fn beginning(&mut self) -> Result<(ProcessKind, Span), ListingFault>
        ensures gives { Gives (beginning (state self.old)) result (state self.new) }
        ensures same { Same self.new self.old }
    {
        let found = self.take()?;
        let kind = first_of(self.text, found).ok_or(ListingFault::Grammar(found.start))?;
        Ok((kind, found))
    }

    // Refuses a word that may be no name.
    pub(crate) fn named(&self, word: Span) -> Result<(), ListingFault>
        ensures { Gives (named word (state self.now)) result (state self.now) }
    {
        match head_of(spell(self.text, word)) {
            Some(Head::Name) => Ok(()),
            _ => Err(ListingFault::Grammar(word.start)),
        }
    }

    // A word that may be a name.
    #[tactic(auto, unfolding(crate::specs::Tokens::binder))]
    pub(crate) fn binder(&mut self) -> Result<Span, ListingFault>
        ensures gives { Gives (binder (state self.old)) result (state self.new) }
        ensures same { Same self.new self.old }
    {
        let word = self.word()?;
        self.named(word)?;
        Ok(word)
    }

    // The end of the text.
    pub(crate) fn ending(&mut self) -> Result<(), ListingFault>
        ensures gives { Gives (ending (state self.old)) result (state self.new) }
        ensures same { Same self.new self.old }
    {
        self.exactly(Token::End)?;
        Ok(())
    }
}
