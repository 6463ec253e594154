// Copies share their texts.
ghost use Rattle.std.specs.Prelude.{◌≡◌, IfOk};

use crate::node_tests::{NameTest, SpaceRule, Test};
use crate::types::{ItemType, SeqType};
use std::alloc::AllocError;
use xt_names::{List, Share, copy_list};

impl NameTest {
    /// The same test.
    pub fn copy(&self) -> Result<NameTest, AllocError>
        ensures { IfOk result (λ copy. copy ≡ self.now) }
    {
        match self {
            NameTest::Any => Ok(NameTest::Any),
            NameTest::Uri(uri) => Ok(NameTest::Uri(uri.copy()?)),
            NameTest::Local(local) => Ok(NameTest::Local(local.copy()?)),
            NameTest::Exact(name) => Ok(NameTest::Exact(name.copy()?)),
        }
    }
}

/// The same value, where there is one.
pub fn copy_option<T: Share>(value: &Option<T>) -> Result<Option<T>, AllocError>
    ensures { IfOk result (λ copy. copy ≡ value.now) }
{
    match value {
        None => Ok(None),
        Some(value) => Ok(Some(value.share()?)),
    }
}

impl Test {
    /// The same test.
    pub fn copy(&self) -> Result<Test, AllocError>
        ensures { IfOk result (λ copy. copy ≡ self.now) }
    {
        match self {
            Test::Named(name) => Ok(Test::Named(name.copy()?)),
            Test::Node => Ok(Test::Node),
            Test::Text => Ok(Test::Text),
            Test::Comment => Ok(Test::Comment),
            Test::Pi(target) => Ok(Test::Pi(copy_option(target)?)),
            Test::Doc => Ok(Test::Doc),
            Test::Elem(name) => Ok(Test::Elem(name.copy()?)),
            Test::Attr(name) => Ok(Test::Attr(name.copy()?)),
        }
    }
}

impl SpaceRule {
    /// The same rule.
    pub fn copy(&self) -> Result<SpaceRule, AllocError>
        ensures { IfOk result (λ copy. copy ≡ self.now) }
    {
        Ok(SpaceRule {
            strip: self.strip,
            test: self.test.copy()?,
        })
    }
}

impl ItemType {
    /// The same type.
    pub fn copy(&self) -> Result<ItemType, AllocError>
        ensures { IfOk result (λ copy. copy ≡ self.now) }
    {
        match self {
            ItemType::Any => Ok(ItemType::Any),
            ItemType::Kind(test) => Ok(ItemType::Kind(test.copy()?)),
            ItemType::Atomic(atom) => Ok(ItemType::Atomic(*atom)),
        }
    }
}

impl SeqType {
    /// The same type.
    pub fn copy(&self) -> Result<SeqType, AllocError>
        ensures { IfOk result (λ copy. copy ≡ self.now) }
    {
        match self {
            SeqType::Empty => Ok(SeqType::Empty),
            SeqType::Of(item, count) => Ok(SeqType::Of(item.copy()?, *count)),
        }
    }
}

impl Share for NameTest {
    fn share(&self) -> Result<NameTest, AllocError> {
        self.copy()
    }
}

impl Share for Test {
    fn share(&self) -> Result<Test, AllocError> {
        self.copy()
    }
}

impl Share for SpaceRule {
    fn share(&self) -> Result<SpaceRule, AllocError> {
        self.copy()
    }
}

impl Share for ItemType {
    fn share(&self) -> Result<ItemType, AllocError> {
        self.copy()
    }
}

impl Share for SeqType {
    fn share(&self) -> Result<SeqType, AllocError> {
        self.copy()
    }
}

/// The list of the same tests.
pub fn copy_name_test_list(items: &List<NameTest>) -> Result<List<NameTest>, AllocError>
    ensures { IfOk result (λ copy. copy ≡ items.now) }
{
    copy_list(items)
}

/// The list of the same tests.
pub fn copy_test_list(items: &List<Test>) -> Result<List<Test>, AllocError>
    ensures { IfOk result (λ copy. copy ≡ items.now) }
{
    copy_list(items)
}

/// The list of the same rules.
pub fn copy_space_rule_list(items: &List<SpaceRule>) -> Result<List<SpaceRule>, AllocError>
    ensures { IfOk result (λ copy. copy ≡ items.now) }
{
    copy_list(items)
}

/// The list of the same types.
pub fn copy_item_type_list(items: &List<ItemType>) -> Result<List<ItemType>, AllocError>
    ensures { IfOk result (λ copy. copy ≡ items.now) }
{
    copy_list(items)
}

/// The list of the same types.
pub fn copy_seq_type_list(items: &List<SeqType>) -> Result<List<SeqType>, AllocError>
    ensures { IfOk result (λ copy. copy ≡ items.now) }
{
    copy_list(items)
}
