// Copies share the parts.
ghost use Rattle.std.specs.Prelude.{◌≡◌, IfOk};

use crate::instr_copies::{copy_bound_list, copy_instr_list};
use crate::sheets::{Global, KeyRule, Level, Rule, Sheet, SheetFunction, Template};
use std::alloc::AllocError;
use xt_names::{List, Share, copy_expr_name_list, copy_list};
use xt_syntax::xt_types::{copy_option, copy_space_rule_list};

impl Sheet {
    /// The same stylesheet.
    pub fn copy(&self) -> Result<Sheet, AllocError>
        ensures { IfOk result (λ copy. copy ≡ self.now) }
    {
        Ok(Sheet {
            levels: copy_level_list(&self.levels)?,
            globals: copy_global_list(&self.globals)?,
            templates: copy_template_list(&self.templates)?,
            rules: copy_rule_list(&self.rules)?,
            functions: copy_sheet_function_list(&self.functions)?,
            keys: copy_key_rule_list(&self.keys)?,
            modes: copy_expr_name_list(&self.modes)?,
            space: copy_space_rule_list(&self.space)?,
            omit: self.omit,
        })
    }
}

impl Global {
    /// The same variable or parameter.
    pub fn copy(&self) -> Result<Global, AllocError>
        ensures { IfOk result (λ copy. copy ≡ self.now) }
    {
        Ok(Global {
            bound: self.bound.copy()?,
            param: self.param,
        })
    }
}

impl Template {
    /// The same template.
    pub fn copy(&self) -> Result<Template, AllocError>
        ensures { IfOk result (λ copy. copy ≡ self.now) }
    {
        Ok(Template {
            name: copy_option(&self.name)?,
            params: copy_bound_list(&self.params)?,
            kind: copy_option(&self.kind)?,
            body: copy_instr_list(&self.body)?,
            has_match: self.has_match,
        })
    }
}

impl Rule {
    /// The same rule.
    pub fn copy(&self) -> Result<Rule, AllocError>
        ensures { IfOk result (λ copy. copy ≡ self.now) }
    {
        Ok(Rule {
            template: self.template,
            pattern: self.pattern.copy()?,
            modes: copy_numbers(&self.modes)?,
            precedence: self.precedence,
            priority: self.priority,
        })
    }
}

fn copy_numbers(items: &List<u32>) -> Result<List<u32>, AllocError>
    ensures { IfOk result (λ copy. copy ≡ items.now) }
{
    let copied = Vec::from_slice(items.allocator(), items.as_slice())?;
    Ok(List::of_vec(copied))
}

impl SheetFunction {
    /// The same function.
    pub fn copy(&self) -> Result<SheetFunction, AllocError>
        ensures { IfOk result (λ copy. copy ≡ self.now) }
    {
        Ok(SheetFunction {
            name: self.name.copy()?,
            params: copy_bound_list(&self.params)?,
            kind: copy_option(&self.kind)?,
            body: copy_instr_list(&self.body)?,
        })
    }
}

impl KeyRule {
    /// The same declaration.
    pub fn copy(&self) -> Result<KeyRule, AllocError>
        ensures { IfOk result (λ copy. copy ≡ self.now) }
    {
        Ok(KeyRule {
            name: self.name.copy()?,
            pattern: self.pattern.copy()?,
            key: self.key.copy()?,
        })
    }
}

impl Share for Sheet {
    fn share(&self) -> Result<Sheet, AllocError> {
        self.copy()
    }
}

impl Share for Level {
    fn share(&self) -> Result<Level, AllocError> {
        Ok(*self)
    }
}

impl Share for Global {
    fn share(&self) -> Result<Global, AllocError> {
        self.copy()
    }
}

impl Share for Template {
    fn share(&self) -> Result<Template, AllocError> {
        self.copy()
    }
}

impl Share for Rule {
    fn share(&self) -> Result<Rule, AllocError> {
        self.copy()
    }
}

impl Share for SheetFunction {
    fn share(&self) -> Result<SheetFunction, AllocError> {
        self.copy()
    }
}

impl Share for KeyRule {
    fn share(&self) -> Result<KeyRule, AllocError> {
        self.copy()
    }
}

/// The list of the same stylesheets.
pub fn copy_sheet_list(items: &List<Sheet>) -> Result<List<Sheet>, AllocError>
    ensures { IfOk result (λ copy. copy ≡ items.now) }
{
    copy_list(items)
}

/// The list of the same levels.
pub fn copy_level_list(items: &List<Level>) -> Result<List<Level>, AllocError>
    ensures { IfOk result (λ copy. copy ≡ items.now) }
{
    copy_list(items)
}

/// The list of the same variables or parameters.
pub fn copy_global_list(items: &List<Global>) -> Result<List<Global>, AllocError>
    ensures { IfOk result (λ copy. copy ≡ items.now) }
{
    copy_list(items)
}

/// The list of the same templates.
pub fn copy_template_list(items: &List<Template>) -> Result<List<Template>, AllocError>
    ensures { IfOk result (λ copy. copy ≡ items.now) }
{
    copy_list(items)
}

/// The list of the same rules.
pub fn copy_rule_list(items: &List<Rule>) -> Result<List<Rule>, AllocError>
    ensures { IfOk result (λ copy. copy ≡ items.now) }
{
    copy_list(items)
}

/// The list of the same functions.
pub fn copy_sheet_function_list(
    items: &List<SheetFunction>,
) -> Result<List<SheetFunction>, AllocError>
    ensures { IfOk result (λ copy. copy ≡ items.now) }
{
    copy_list(items)
}

/// The list of the same declarations.
pub fn copy_key_rule_list(items: &List<KeyRule>) -> Result<List<KeyRule>, AllocError>
    ensures { IfOk result (λ copy. copy ≡ items.now) }
{
    copy_list(items)
}
