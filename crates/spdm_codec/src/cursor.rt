ghost use Rattle.std.specs.Prelude.{◌≡◌, ◌≤◌, ◌<◌, ◌^◌, ◌+◌, ◌==◌, length, IfOk, OnOk};
ghost use Rattle.spdm_grammar.specs.Reading.{field_at, number_at, optional_at, behind_table, tables_at, ended, ended_sized, all_up_to};
ghost use Rattle.spdm_grammar.specs.declared.messages.malformed.Part.TheVariants.{Field};
ghost use Rattle.spdm_codec.specs.Answer.{Gives};
ghost use Rattle.spdm_codec.specs.Behind.{IsBehind};

use byteorder::{ByteOrder, LittleEndian};
use spdm_grammar::{Malformed, Part};
use std::marker::Model;

/// A place in the input, from which fields are read one by one.
#[derive(Drop)]
pub struct Cursor<'a> {
    rest: &'a [u8],
    at: usize,
}

impl<'a> Model for Cursor<'a> {
    ghost use Rattle.std.specs.Prelude.{◌<◌, ◌+◌, ◌^◌, length};
    ghost use Rattle.spdm_grammar.specs.Reading.{Place};

    ghost Value = { Place };

    ghost view = { λ c. record { rest = c.rest.now; at = c.at } };

    ghost invariant = { λ c. c.at + length c.rest.now < 2 ^ 63 };
}

impl<'a> Cursor<'a> {
    /// The front of the input.
    pub fn new(bytes: &'a [u8]) -> Self
        ensures { result ≡ record { rest = bytes.now; at = 0 } }
    {
        Cursor { rest: bytes, at: 0 }
    }

    /// How many bytes were read.
    pub fn at(&self) -> usize
        ensures { result ≡ self.now.at }
    {
        self.at
    }

    /// The next bytes.
    #[tactic(auto, unfolding(spdm_grammar::specs::Reading::field_at))]
    pub fn field(&mut self, width: usize) -> Result<&'a [u8], Malformed>
        ensures gives { Gives (λ field. (field.now, self.new)) result (field_at width self.old) }
        ensures width { IfOk result (λ field. length field.now ≡ width) }
        ensures behind { OnOk result (IsBehind self.old self.new) }
    {
        if self.rest.len() < width {
            return Err(Malformed {
                at: self.at + self.rest.len(),
                what: Part::End,
            });
        }
        let (field, rest) = self.rest.split_at(width);
        self.rest = rest;
        self.at += width;
        Ok(field)
    }

    /// The next byte, as a number.
    #[tactic(auto, unfolding(spdm_grammar::specs::Reading::number_at))]
    pub fn byte(&mut self) -> Result<u8, Malformed>
        ensures gives { Gives (λ number. (number, self.new)) result (number_at 1 self.old) }
        ensures behind { OnOk result (IsBehind self.old self.new) }
    {
        let field = self.field(1)?;
        Ok(field[0])
    }

    /// The next two bytes, as a number.
    #[tactic(auto, unfolding(spdm_grammar::specs::Reading::number_at))]
    pub fn two(&mut self) -> Result<u16, Malformed>
        ensures { Gives (λ number. (number, self.new)) result (number_at 2 self.old) }
    {
        let field = self.field(2)?;
        Ok(LittleEndian::read_u16(field))
    }

    /// The next three bytes, as a number.
    #[tactic(auto, unfolding(spdm_grammar::specs::Reading::number_at))]
    pub fn three(&mut self) -> Result<u32, Malformed>
        ensures { Gives (λ number. (number, self.new)) result (number_at 3 self.old) }
    {
        let field = self.field(3)?;
        Ok(LittleEndian::read_u24(field))
    }

    /// The next four bytes, as a number.
    #[tactic(auto, unfolding(spdm_grammar::specs::Reading::number_at))]
    pub fn four(&mut self) -> Result<u32, Malformed>
        ensures { Gives (λ number. (number, self.new)) result (number_at 4 self.old) }
    {
        let field = self.field(4)?;
        Ok(LittleEndian::read_u32(field))
    }

    /// The next four bytes, as a number, where that field is there.
    #[tactic(auto, unfolding(spdm_grammar::specs::Reading::optional_at))]
    pub fn optional_four(&mut self, is_there: bool) -> Result<Option<u32>, Malformed>
        ensures { Gives (λ number. (number, self.new)) result (optional_at is_there 4 self.old) }
    {
        if is_there {
            Ok(Some(self.four()?))
        } else {
            Ok(None)
        }
    }

    // The next algorithm structure.
    #[tactic(auto, unfolding(spdm_grammar::specs::Reading::behind_table))]
    fn table(&mut self) -> Result<(), Malformed>
        ensures gives { Gives (λ _. self.new) result (behind_table self.old) }
        ensures behind { OnOk result (IsBehind self.old self.new) }
    {
        self.field(1)?;
        let at = self.at;
        let count = self.byte()?;
        if count / 16 != 2 {
            return Err(not_allowed(at));
        }
        self.field(2 + 4 * usize::from(count % 16))?;
        Ok(())
    }

    /// The next algorithm structures, as they stand.
    #[tactic(auto, using(crate::proofs::Tables::behind_tables_start, crate::proofs::Tables::behind_tables_next, crate::proofs::Tables::behind_tables_fault, crate::proofs::Tables::behind_tables_end), unfolding(spdm_grammar::specs::Reading::tables_at))]
    pub fn tables(&mut self, count: u8) -> Result<&'a [u8], Malformed>
        ensures { Gives (λ field. (field.now, self.new)) result (tables_at count self.old) }
    {
        let rest = self.rest;
        let start = self.at;
        for i in 0..count {
            self.table()?;
        }
        Ok(&rest[..self.at - start])
    }

    /// All bytes that are left, of which there are at most so many.
    pub fn up_to(&self, most: usize) -> Result<&'a [u8], Malformed>
        requires { most < 2 ^ 16 }
        ensures { Gives (λ field. field.now) result (all_up_to most self.now) }
    {
        if self.rest.len() > most {
            return Err(Malformed {
                at: self.at + most,
                what: Part::Rest,
            });
        }
        Ok(self.rest)
    }

    /// All bytes that are left.
    pub fn remaining(&self) -> &'a [u8]
        ensures { result.now ≡ self.now.rest }
    {
        self.rest
    }

    /// That a Length field, at offset 4, told the length of what was read, and that no bytes are left.
    pub fn sized(&self, told: u16) -> Result<(), Malformed>
        ensures { Gives (λ _. self.now) result (ended_sized told 4 self.now self.now) }
    {
        if usize::from(told) != self.at {
            return Err(Malformed {
                at: 4,
                what: Part::Length,
            });
        }
        self.end()
    }

    /// That no bytes are left.
    pub fn end(&self) -> Result<(), Malformed>
        ensures { Gives (λ _. self.now) result (ended self.now self.now) }
    {
        if !self.rest.is_empty() {
            return Err(Malformed {
                at: self.at,
                what: Part::Rest,
            });
        }
        Ok(())
    }
}

/// The fault of a field at this offset whose value is not allowed.
pub fn not_allowed(at: usize) -> Malformed
    ensures { result ≡ record { at = at; what = Field } }
{
    Malformed {
        at,
        what: Part::Field,
    }
}
