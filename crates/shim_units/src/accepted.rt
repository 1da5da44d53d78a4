// An accepted program.
ghost use Rattle.std.specs.Prelude.{◌≡◌, ◌<◌, ◌^◌, length, IfOk};
ghost use Rattle.std.specs.Option.{option_copied};
ghost use Rattle.shim_units.specs.OfText.{IsUnitsOfText, IsAcceptedForm, IsUnitsOfBytes, FitsKeptText};
ghost use Rattle.shim_units.specs.Sizes.{AreFit};

use crate::form::Form;
use crate::unit::Unit;
use shim_base::{List, Name, NoMemory, Shared};
use std::alloc::Global;
use std::marker::Model;

/// The units of a program that has a text of at most 1 MiB, that is bound and that obeys the sharing
/// rule. It may have several owners. Where the text is kept from which it was read, two programs of the same
/// text are known to be the same without a look at their units.
#[derive(Drop)]
pub struct Accepted {
    form: Shared<Form>,
    text: Option<Shared<List<u8>>>,
}

impl Model for Accepted {
    ghost use Rattle.std.specs.Coded.{codes};
    ghost use Rattle.shim_units.specs.contracts.unit.Unit as unit;
    ghost use Rattle.shim_units.specs.declared.form.Form.{Form};
    ghost use Rattle.shim_units.specs.OfText.{IsAcceptedForm, FitsKeptText};

    ghost Value = { Form };

    ghost coded = { Prim.hlevel (codes, unit.the_row.coded) };

    ghost view = { λ accepted. accepted.form };

    ghost invariant = { λ accepted. IsAcceptedForm accepted.form × FitsKeptText accepted.text accepted.form };
}

impl Accepted {
    /// One more owner of the same units and text.
    pub fn share(&self) -> Result<Accepted, NoMemory>
        ensures { IfOk result (λ accepted. accepted ≡ self.now) }
    {
        Ok(Accepted {
            form: self.form.share()?,
            text: share_text(&self.text)?,
        })
    }

    /// The same program with a copy of the text from which it was read. No clause says that the copy is kept.
    pub fn with_text(self, alloc: Global, bytes: &[u8]) -> Result<Accepted, NoMemory>
        requires { ∥ IsUnitsOfBytes bytes.now self ∥₁ }
        ensures { IfOk result (λ accepted. accepted ≡ self) }
    {
        let Accepted { form, .. } = self;
        let text = List::from_slice(alloc, bytes)?;
        Ok(Accepted {
            form,
            text: Some(Shared::new(alloc, text)?),
        })
    }

    /// A text from which it and no other program is read, where one is kept.
    pub fn text(&self) -> Option<&[u8]>
        ensures { FitsKeptText (option_copied result) self.now }
    {
        match &self.text {
            Some(text) => Some(text.as_slice()),
            None => None,
        }
    }

    /// The units of the functions, in the order of the source. After them all come the units of the block
    /// branches, in the order in which these begin. The statements of each unit take fewer than 2 ^ 31 numbers.
    pub fn units(&self) -> &[Unit]
        ensures value { result.now ≡ self.now.units }
        ensures of_text { ∥ IsUnitsOfText self.now ∥₁ }
        ensures fit { AreFit self.now.units }
    {
        self.form.units.as_slice()
    }

    /// The names of the source, none of them twice, in the order of their first occurrences.
    pub fn names(&self) -> &[Name]
        ensures { result.now ≡ self.now.names }
    {
        self.form.names.as_slice()
    }

    /// The number of the unit of the function `main`.
    pub fn main(&self) -> u32
        ensures { result ≡ self.now.main }
    {
        self.form.main
    }

    /// The numbers of the names in the `throws` of `main`, of which there are fewer than 2 ^ 21.
    pub fn main_throws(&self) -> &[u32]
        ensures value { result.now ≡ self.now.main_throws }
        ensures few { length result.now < 2 ^ 21 }
    {
        self.form.main_throws.as_slice()
    }
}

/// The accepted program in these units, which keeps no text. Its condition is all that the type keeps of units.
pub fn from_form(alloc: Global, form: Form) -> Result<Accepted, NoMemory>
    requires { IsAcceptedForm form }
    ensures { IfOk result (λ accepted. accepted ≡ form) }
{
    Ok(Accepted {
        form: Shared::new(alloc, form)?,
        text: None,
    })
}

// One more owner of the same text.
fn share_text(text: &Option<Shared<List<u8>>>) -> Result<Option<Shared<List<u8>>>, NoMemory>
    ensures { IfOk result (λ other. other ≡ text.now) }
{
    match text {
        Some(text) => Ok(Some(text.share()?)),
        None => Ok(None),
    }
}
