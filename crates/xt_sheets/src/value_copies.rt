// Copies share the parts.
ghost use Rattle.std.specs.Prelude.{◌≡◌, IfOk};

use crate::values::{AvtName, AvtPart, Grouping, LiteralAttr, ModeUse, Sort};
use std::alloc::AllocError;
use xt_names::{List, Share, copy_list};

impl<E: Drop> AvtPart<E> {
    /// The same part.
    pub fn copy(&self) -> Result<AvtPart<E>, AllocError>
        ensures { IfOk result (λ copy. copy ≡ self.now) }
    {
        match self {
            AvtPart::Chars(text) => Ok(AvtPart::Chars(text.copy()?)),
            AvtPart::Code(e) => Ok(AvtPart::Code(e.copy()?)),
        }
    }
}

impl<E: Drop> AvtName<E> {
    /// The same name.
    pub fn copy(&self) -> Result<AvtName<E>, AllocError>
        ensures { IfOk result (λ copy. copy ≡ self.now) }
    {
        Ok(AvtName {
            text: self.text.copy()?,
            scope: self.scope.copy()?,
            default_uri: self.default_uri.copy()?,
        })
    }
}

impl<E: Drop> LiteralAttr<E> {
    /// The same attribute.
    pub fn copy(&self) -> Result<LiteralAttr<E>, AllocError>
        ensures { IfOk result (λ copy. copy ≡ self.now) }
    {
        Ok(LiteralAttr {
            name: self.name.copy()?,
            value: self.value.copy()?,
        })
    }
}

impl<E: Drop> Sort<E> {
    /// The same key.
    pub fn copy(&self) -> Result<Sort<E>, AllocError>
        ensures { IfOk result (λ copy. copy ≡ self.now) }
    {
        Ok(Sort {
            key: self.key.copy()?,
            descending: self.descending,
            number: self.number,
        })
    }
}

impl<E: Drop, P: Drop> Grouping<E, P> {
    /// The same grouping.
    pub fn copy(&self) -> Result<Grouping<E, P>, AllocError>
        ensures { IfOk result (λ copy. copy ≡ self.now) }
    {
        match self {
            Grouping::By(key) => Ok(Grouping::By(key.copy()?)),
            Grouping::Adjacent(key) => Ok(Grouping::Adjacent(key.copy()?)),
            Grouping::Starting(patterns) => Ok(Grouping::Starting(patterns.copy()?)),
        }
    }
}

impl<E: Drop> Share for AvtPart<E> {
    fn share(&self) -> Result<AvtPart<E>, AllocError> {
        self.copy()
    }
}

impl<E: Drop> Share for AvtName<E> {
    fn share(&self) -> Result<AvtName<E>, AllocError> {
        self.copy()
    }
}

impl<E: Drop> Share for LiteralAttr<E> {
    fn share(&self) -> Result<LiteralAttr<E>, AllocError> {
        self.copy()
    }
}

impl<E: Drop> Share for Sort<E> {
    fn share(&self) -> Result<Sort<E>, AllocError> {
        self.copy()
    }
}

impl<E: Drop, P: Drop> Share for Grouping<E, P> {
    fn share(&self) -> Result<Grouping<E, P>, AllocError> {
        self.copy()
    }
}

impl Share for ModeUse {
    fn share(&self) -> Result<ModeUse, AllocError> {
        Ok(*self)
    }
}

/// The list of the same parts.
pub fn copy_avt_part_list<E: Drop>(items: &List<AvtPart<E>>) -> Result<List<AvtPart<E>>, AllocError>
    ensures { IfOk result (λ copy. copy ≡ items.now) }
{
    copy_list(items)
}

/// The list of the same names.
pub fn copy_avt_name_list<E: Drop>(items: &List<AvtName<E>>) -> Result<List<AvtName<E>>, AllocError>
    ensures { IfOk result (λ copy. copy ≡ items.now) }
{
    copy_list(items)
}

/// The list of the same attributes.
pub fn copy_literal_attr_list<E: Drop>(
    items: &List<LiteralAttr<E>>,
) -> Result<List<LiteralAttr<E>>, AllocError>
    ensures { IfOk result (λ copy. copy ≡ items.now) }
{
    copy_list(items)
}

/// The list of the same keys.
pub fn copy_sort_list<E: Drop>(items: &List<Sort<E>>) -> Result<List<Sort<E>>, AllocError>
    ensures { IfOk result (λ copy. copy ≡ items.now) }
{
    copy_list(items)
}

/// The list of the same groupings.
pub fn copy_grouping_list<E: Drop, P: Drop>(
    items: &List<Grouping<E, P>>,
) -> Result<List<Grouping<E, P>>, AllocError>
    ensures { IfOk result (λ copy. copy ≡ items.now) }
{
    copy_list(items)
}

/// The list of the same uses of modes.
pub fn copy_mode_use_list(items: &List<ModeUse>) -> Result<List<ModeUse>, AllocError>
    ensures { IfOk result (λ copy. copy ≡ items.now) }
{
    copy_list(items)
}
