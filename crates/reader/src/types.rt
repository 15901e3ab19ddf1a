// Types. Equal types share a row.
ghost use Rattle.std.specs.Prelude.{◌≡◌, ℕ, ◌+◌, ◌-◌, ◌<◌, ◌≤◌, ◌∷◌, codes};
ghost use Rattle.arrayvec.specs.ArrayVec.{array_vec_len};
ghost use Rattle.rows.specs.Types.{equal_row};
ghost use Rattle.reader.specs.Cursor.{state, Gives, Lent, Same};
ghost use Rattle.reader.specs.Types.{type_named, payload_type, fifth_type, payload, kind, parts_of, described};
ghost use Rattle.reader.specs.Types.{share, new_type, declaration, declarations};

use crate::parts::Parts;
use crate::tables::{Reader, append};
use rows::{TypeKind, TypeRow};
use scanning::{ListingFault, TypeWord, row_of, spell, type_kind};
use words::{Mark, Span};

// The most type rows.
const MOST: u16 = 64;

impl Reader<'_> {
    // `open`, which is row 0, or a word declared before.
    #[tactic(auto, unfolding(crate::specs::Types::type_named))]
    pub(crate) fn type_named(&mut self) -> Result<TypeWord, ListingFault>
        ensures gives { Gives (type_named (state self.old)) result (state self.new) }
        ensures same { Same self.new self.old }
    {
        let word = self.word()?;
        let w = spell(self.text, word);
        if w == b"open".as_slice() {
            return Ok(TypeWord { word, row: 0 });
        }
        self.named(word)?;
        let row = row_of(self.text, &self.words, w).ok_or(ListingFault::Name(word.start))?;
        Ok(TypeWord { word, row })
    }

    #[tactic(auto, unfolding(crate::specs::Types::payload_type))]
    fn payload_type(&mut self) -> Result<u16, ListingFault>
        ensures gives { Gives (payload_type (state self.old)) result (state self.new) }
        ensures same { Same self.new self.old }
    {
        let found = self.type_named()?;
        Ok(found.row)
    }

    // A fifth payload type.
    #[tactic(auto, unfolding(crate::specs::Types::fifth_type))]
    fn fifth_type(&mut self) -> Result<Parts, ListingFault>
        ensures gives { Gives (fifth_type (state self.old)) result (state self.new) }
        ensures same { Same self.new self.old }
    {
        let found = self.type_named()?;
        Err(ListingFault::Limit(found.word.start))
    }

    // One to four types with commas between them, up to `)`.
    // Kept: a loop of its own. One for all lists would take two closures on the reader, for an item and
    // for one too many, each with its contract, and be longer than this loop and those of `name_list`
    // and `free_names`.
    #[tactic(auto, unfolding(crate::specs::Types::payload))]
    fn payload(&mut self) -> Result<Parts, ListingFault>
        ensures gives { Gives (payload (state self.old)) result (state self.new) }
        ensures same { Same self.new self.old }
    {
        let mut parts = Parts::default();
        while parts.count < 4 {
            let item = self.payload_type()?;
            parts.push(item);
            let more = self.comma(Mark::Close)?;
            if !more {
                return Ok(parts);
            }
        }
        self.fifth_type()
    }

    #[tactic(auto, unfolding(crate::specs::Types::kind))]
    fn kind(&mut self) -> Result<TypeKind, ListingFault>
        ensures gives { Gives (kind (state self.old)) result (state self.new) }
        ensures same { Same self.new self.old }
    {
        let word = self.word()?;
        type_kind(spell(self.text, word)).ok_or(ListingFault::Grammar(word.start))
    }

    // What follows the level: nothing at a plain level, else a payload in brackets.
    #[tactic(auto, unfolding(crate::specs::Types::parts_of))]
    fn parts_of(&mut self, kind: TypeKind) -> Result<Parts, ListingFault>
        ensures gives { Gives (parts_of kind (state self.old)) result (state self.new) }
        ensures same { Same self.new self.old }
    {
        if kind == TypeKind::Level {
            return Ok(Parts::default());
        }
        self.mark(Mark::Open)?;
        self.payload()
    }

    // `level 2` or `chan 2 (s, open)`
    #[tactic(auto, unfolding(crate::specs::Types::described))]
    fn described(&mut self) -> Result<TypeRow, ListingFault>
        ensures gives { Gives (described (state self.old)) result (state self.new) }
        ensures same { Same self.new self.old }
    {
        let kind = self.kind()?;
        let level = self.number()?;
        let parts = self.parts_of(kind)?;
        Ok(parts.typed(kind, level))
    }

    // The row that is equal to a type.
    fn row_like(&self, t: TypeRow) -> Option<u16>
        ensures { result ≡ equal_row (state self.now).types t self.now.typed }
    {
        let row = t.last_in(&self.types[..self.typed as usize])?;
        Some(row as u16)
    }

    // The row of a type, which is a new one if no row is equal to it.
    #[tactic(auto, unfolding(crate::specs::Types::share))]
    pub(crate) fn share(&mut self, t: TypeRow, place: usize) -> Result<u16, ListingFault>
        ensures gives { Gives (share t place (state self.old)) result (state self.new) }
        ensures same { Same self.new self.old }
    {
        match self.row_like(t) {
            None => append(self.types, &mut self.typed, MOST, t, place),
            Some(row) => Ok(row),
        }
    }

    // `q =`: a word that names no type yet.
    #[tactic(auto, unfolding(crate::specs::Types::new_type))]
    fn new_type(&mut self) -> Result<Span, ListingFault>
        ensures gives { Gives (new_type (state self.old)) result (state self.new) }
        ensures same { Same self.new self.old }
    {
        let word = self.binder()?;
        if row_of(self.text, &self.words, spell(self.text, word)).is_some() {
            return Err(ListingFault::Grammar(word.start));
        }
        self.mark(Mark::Equals)?;
        Ok(word)
    }

    // What follows the word `type`, which stands at `place`.
    #[tactic(auto, unfolding(crate::specs::Types::declaration))]
    fn declaration(&mut self, place: usize) -> Result<TypeWord, ListingFault>
        ensures gives { Gives (declaration place (state self.old)) result (state self.new) }
        ensures same { Same self.new self.old }
    {
        let word = self.new_type()?;
        let t = self.described()?;
        let row = self.share(t, place)?;
        self.mark(Mark::Semicolon)?;
        Ok(TypeWord { word, row })
    }

    // The declared types, as far as they go.
    pub(crate) fn declarations(&mut self) -> Result<(), ListingFault>
        ensures gives { Gives (declarations (2184 - array_vec_len self.old.words) (state self.old)) result (state self.new) }
        ensures lent { Lent self.new self.old }
    {
        while let Some(first) = self.ahead(b"type")? {
            if self.words.is_full() {
                return Err(ListingFault::Limit(first.start));
            }
            let word = self.declaration(first.start)?;
            self.words.push(word);
        }
        Ok(())
    }
}
