//! The statements of one expression and of two. Those that change resources are done here.
ghost use Rattle.std.specs.Prelude.{◌≡◌, IfOk, OnOk};
ghost use Rattle.iso_model.specs.ResourceKeys.{file_key, spelling};
ghost use Rattle.iso_model.specs.Resources.{text_in};
ghost use Rattle.iso_model.specs.Statements.{allowed, appending, changes, deleting};
ghost use Rattle.iso_model.specs.Syntax.{append_file, clear_prop, delete_file, set_locale, set_prop, write_file};
ghost use Rattle.iso_model.specs.SyntaxView.{term_of, with_one, with_two};
ghost use Rattle.iso_model.specs.Touch.{HasKeys, HasKind, file, kind_of_change, kind_of_key};
ghost use Rattle.iso_model.specs.declared.fault.Fault.TheVariants as Faults;
ghost use Rattle.iso_interp.specs.Runs.{Performs, SameWork, faulted, local_of, run_rights, state_of};
ghost use Rattle.iso_interp.specs.Values.{appended};

use crate::operators::joined_text;
use crate::run::BlockRun;
use iso_model::access::Access;
use iso_model::fault::Fault;
use iso_model::resource::{Ask, Change};
use iso_model::resource_key::ResourceKey;
use iso_model::text::Text;
use iso_model::touch::Touch;
use iso_model::tree::{Expr, OneOperand, TwoOperands};
use std::alloc::AllocError;

impl<'a> BlockRun<'a> {
    /// Does a statement of one expression.
    pub(super) fn perform_one<T: Touch>(
        &mut self,
        touch: &mut T,
        row: u32,
        what: OneOperand,
        operand: &Expr,
    ) -> Result<(), AllocError>
        requires { HasKeys (run_rights self.old) (T.content touch.old) (T.writes touch.old) }
        ensures done { Performs self.old self.new (T.content touch.old) (T.content touch.new) row
            (with_one what (term_of operand.now)) result }
        ensures work { SameWork self.old self.new }
        ensures goes_on { T.goes_on touch.old touch.new }
    {
        match what {
            OneOperand::Print => self.print(touch, row, operand),
            OneOperand::Assert => self.assert(touch, row, operand),
            OneOperand::ClearProp => self.clear_prop(touch, row, operand),
            OneOperand::SetLocale => self.set_locale(touch, row, operand),
            OneOperand::DeleteFile => self.delete_file(touch, row, operand),
        }
    }

    /// Does a statement of two expressions.
    pub(super) fn perform_two<T: Touch>(
        &mut self,
        touch: &mut T,
        row: u32,
        what: TwoOperands,
        first: &Expr,
        second: &Expr,
    ) -> Result<(), AllocError>
        requires { HasKeys (run_rights self.old) (T.content touch.old) (T.writes touch.old) }
        ensures done { Performs self.old self.new (T.content touch.old) (T.content touch.new) row
            (with_two what (term_of first.now) (term_of second.now)) result }
        ensures work { SameWork self.old self.new }
        ensures goes_on { T.goes_on touch.old touch.new }
    {
        match what {
            TwoOperands::AssertEqual => self.assert_equal(touch, row, first, second),
            TwoOperands::SetProp => self.set_prop(touch, row, first, second),
            TwoOperands::WriteFile => self.write_file(touch, row, first, second),
            TwoOperands::AppendFile => self.append_file(touch, row, first, second),
        }
    }

    /// `clear_prop NAME;`
    fn clear_prop<T: Touch>(
        &mut self,
        touch: &mut T,
        row: u32,
        name: &Expr,
    ) -> Result<(), AllocError>
        requires { HasKeys (run_rights self.old) (T.content touch.old) (T.writes touch.old) }
        ensures done { Performs self.old self.new (T.content touch.old) (T.content touch.new) row
            (clear_prop (term_of name.now)) result }
        ensures work { SameWork self.old self.new }
        ensures goes_on { T.goes_on touch.old touch.new }
    {
        match self.own_text(touch, name)? {
            Ok(name) => {
                let change = Change::ClearProp(name);
                self.change(touch, row, ResourceKey::Properties, change)
            }
            Err(fault) => self.fault(row, fault),
        }
    }

    /// `set_locale TEXT;`
    fn set_locale<T: Touch>(
        &mut self,
        touch: &mut T,
        row: u32,
        text: &Expr,
    ) -> Result<(), AllocError>
        requires { HasKeys (run_rights self.old) (T.content touch.old) (T.writes touch.old) }
        ensures done { Performs self.old self.new (T.content touch.old) (T.content touch.new) row
            (set_locale (term_of text.now)) result }
        ensures work { SameWork self.old self.new }
        ensures goes_on { T.goes_on touch.old touch.new }
    {
        match self.own_text(touch, text)? {
            Ok(text) => self.change(touch, row, ResourceKey::Locale, Change::SetLocale(text)),
            Err(fault) => self.fault(row, fault),
        }
    }

    /// `delete_file PATH;`
    fn delete_file<T: Touch>(
        &mut self,
        touch: &mut T,
        row: u32,
        path: &Expr,
    ) -> Result<(), AllocError>
        requires { HasKeys (run_rights self.old) (T.content touch.old) (T.writes touch.old) }
        ensures done { Performs self.old self.new (T.content touch.old) (T.content touch.new) row
            (delete_file (term_of path.now)) result }
        ensures work { SameWork self.old self.new }
        ensures goes_on { T.goes_on touch.old touch.new }
    {
        match self.own_text(touch, path)? {
            Ok(path) => self.delete(touch, row, &path),
            Err(fault) => self.fault(row, fault),
        }
    }

    /// `set_prop NAME, TEXT;`
    fn set_prop<T: Touch>(
        &mut self,
        touch: &mut T,
        row: u32,
        name: &Expr,
        text: &Expr,
    ) -> Result<(), AllocError>
        requires { HasKeys (run_rights self.old) (T.content touch.old) (T.writes touch.old) }
        ensures done { Performs self.old self.new (T.content touch.old) (T.content touch.new) row
            (set_prop (term_of name.now) (term_of text.now)) result }
        ensures work { SameWork self.old self.new }
        ensures goes_on { T.goes_on touch.old touch.new }
    {
        match self.own_texts(touch, name, text)? {
            Ok((name, text)) => {
                let change = Change::SetProp(name, text);
                self.change(touch, row, ResourceKey::Properties, change)
            }
            Err(fault) => self.fault(row, fault),
        }
    }

    /// `write_file PATH, TEXT;`
    fn write_file<T: Touch>(
        &mut self,
        touch: &mut T,
        row: u32,
        path: &Expr,
        text: &Expr,
    ) -> Result<(), AllocError>
        requires { HasKeys (run_rights self.old) (T.content touch.old) (T.writes touch.old) }
        ensures done { Performs self.old self.new (T.content touch.old) (T.content touch.new) row
            (write_file (term_of path.now) (term_of text.now)) result }
        ensures work { SameWork self.old self.new }
        ensures goes_on { T.goes_on touch.old touch.new }
    {
        match self.own_texts(touch, path, text)? {
            Ok((path, text)) => {
                let key = ResourceKey::File(path.as_str());
                self.change(touch, row, key, Change::WriteFile(text))
            }
            Err(fault) => self.fault(row, fault),
        }
    }

    /// `append_file PATH, TEXT;`
    fn append_file<T: Touch>(
        &mut self,
        touch: &mut T,
        row: u32,
        path: &Expr,
        text: &Expr,
    ) -> Result<(), AllocError>
        requires { HasKeys (run_rights self.old) (T.content touch.old) (T.writes touch.old) }
        ensures done { Performs self.old self.new (T.content touch.old) (T.content touch.new) row
            (append_file (term_of path.now) (term_of text.now)) result }
        ensures work { SameWork self.old self.new }
        ensures goes_on { T.goes_on touch.old touch.new }
    {
        match self.own_texts(touch, path, text)? {
            Ok((path, text)) => self.append(touch, row, &path, &text),
            Err(fault) => self.fault(row, fault),
        }
    }

    /// Appends a text to the file at a path, where the rights let it.
    fn append<T: Touch>(
        &mut self,
        touch: &mut T,
        row: u32,
        path: &Text,
        text: &Text,
    ) -> Result<(), AllocError>
        requires { HasKeys (run_rights self.old) (T.content touch.old) (T.writes touch.old) }
        ensures done { OnOk result (state_of self.new (T.content touch.new)
            ≡ allowed (run_rights self.old) row (file_key path.now)
            (state_of self.old (T.content touch.old))
            (appending row path.now text.now (text_in (T.content touch.old (file_key path.now)))
            (state_of self.old (T.content touch.old)))) }
        ensures work { SameWork self.old self.new }
        ensures goes_on { T.goes_on touch.old touch.new }
    {
        let key = ResourceKey::File(path.as_str());
        if !self.rights.lets_change(key) {
            return self.undeclared(row, key);
        }
        match self.appended(touch, path, text)? {
            Ok(text) => touch.change(key, Change::WriteFile(text)),
            Err(fault) => self.fault(row, fault),
        }
    }

    /// The text of the file at a path with a text after it.
    fn appended<T: Touch>(
        &self,
        touch: &T,
        path: &Text,
        text: &Text,
    ) -> Result<Result<Text, Fault>, AllocError>
        requires { HasKind (T.content touch.now (file_key path.now)) file }
        ensures { IfOk result (λ g. g ≡ appended path.now text.now
            (text_in (T.content touch.now (file_key path.now)))) }
    {
        let Some(before) = touch.look(ResourceKey::File(path.as_str()), Ask::File) else {
            return Ok(Err(Fault::MissingFile(path.copy(self.alloc)?)));
        };
        match joined_text(self.alloc, before, text.as_str())? {
            Some(joined) => Ok(Ok(joined)),
            None => Ok(Err(Fault::TextTooLong)),
        }
    }

    /// Deletes the file at a path, where the rights let it.
    fn delete<T: Touch>(&mut self, touch: &mut T, row: u32, path: &Text) -> Result<(), AllocError>
        requires { HasKeys (run_rights self.old) (T.content touch.old) (T.writes touch.old) }
        ensures done { OnOk result (state_of self.new (T.content touch.new)
            ≡ allowed (run_rights self.old) row (file_key path.now)
            (state_of self.old (T.content touch.old))
            (deleting row path.now (text_in (T.content touch.old (file_key path.now)))
            (state_of self.old (T.content touch.old)))) }
        ensures work { SameWork self.old self.new }
        ensures goes_on { T.goes_on touch.old touch.new }
    {
        let key = ResourceKey::File(path.as_str());
        if !self.rights.lets_change(key) {
            return self.undeclared(row, key);
        }
        if touch.look(key, Ask::File).is_none() {
            let missing = path.copy(self.alloc)?;
            return self.fault(row, Fault::MissingFile(missing));
        }
        touch.change(key, Change::DeleteFile)
    }

    /// Changes a resource, where the rights let it.
    fn change<T: Touch>(
        &mut self,
        touch: &mut T,
        row: u32,
        key: ResourceKey<'_>,
        change: Change,
    ) -> Result<(), AllocError>
        requires keys { HasKeys (run_rights self.old) (T.content touch.old) (T.writes touch.old) }
        requires kind { kind_of_key (spelling key) ≡ kind_of_change change }
        ensures done { OnOk result (state_of self.new (T.content touch.new)
            ≡ changes (run_rights self.old) row (spelling key.entry) change
            (state_of self.old (T.content touch.old))) }
        ensures work { SameWork self.old self.new }
        ensures goes_on { T.goes_on touch.old touch.new }
    {
        if self.rights.lets_change(key) {
            touch.change(key, change)
        } else {
            drop(change);
            self.undeclared(row, key)
        }
    }

    /// Ends the block by the fault of a change that isn't declared.
    fn undeclared(&mut self, row: u32, key: ResourceKey<'_>) -> Result<(), AllocError>
        ensures ended { OnOk result (local_of self.new ≡ faulted row
            (Faults.Undeclared Access.Write (spelling key.entry)) (local_of self.old)) }
        ensures work { SameWork self.old self.new }
    {
        let key = key.key(self.alloc)?;
        self.fault(row, Fault::Undeclared(Access::Write, key))
    }
}
