// Copies share the parts.
ghost use Rattle.std.specs.Prelude.{◌≡◌, IfOk};

use crate::prefixes::Prefixes;
use crate::queries::{Query, QueryFunction, QueryParam, QueryVar};
use std::alloc::AllocError;
use xt_names::{List, Share, copy_binding_list, copy_list};
use xt_types::{copy_option, copy_space_rule_list};

impl Query {
    /// The same query.
    pub fn copy(&self) -> Result<Query, AllocError>
        ensures { IfOk result (λ copy. copy ≡ self.now) }
    {
        Ok(Query {
            prefixes: copy_binding_list(&self.prefixes)?,
            element_default: self.element_default.copy()?,
            variables: copy_query_var_list(&self.variables)?,
            functions: copy_query_function_list(&self.functions)?,
            space: copy_space_rule_list(&self.space)?,
            body: self.body.copy()?,
            omit: self.omit,
        })
    }
}

impl QueryVar {
    /// The same variable.
    pub fn copy(&self) -> Result<QueryVar, AllocError>
        ensures { IfOk result (λ copy. copy ≡ self.now) }
    {
        Ok(QueryVar {
            name: self.name.copy()?,
            kind: copy_option(&self.kind)?,
            value: copy_option(&self.value)?,
        })
    }
}

impl QueryFunction {
    /// The same function.
    pub fn copy(&self) -> Result<QueryFunction, AllocError>
        ensures { IfOk result (λ copy. copy ≡ self.now) }
    {
        Ok(QueryFunction {
            name: self.name.copy()?,
            params: copy_query_param_list(&self.params)?,
            kind: copy_option(&self.kind)?,
            body: self.body.copy()?,
        })
    }
}

impl QueryParam {
    /// The same parameter.
    pub fn copy(&self) -> Result<QueryParam, AllocError>
        ensures { IfOk result (λ copy. copy ≡ self.now) }
    {
        Ok(QueryParam {
            name: self.name.copy()?,
            kind: copy_option(&self.kind)?,
        })
    }
}

impl Prefixes {
    /// The same prefixes.
    pub fn copy(&self) -> Result<Prefixes, AllocError>
        ensures { IfOk result (λ copy. copy ≡ self.now) }
    {
        Ok(Prefixes {
            bound: self.bound.copy()?,
            element_default: self.element_default.copy()?,
            function_default: self.function_default.copy()?,
        })
    }
}

impl Share for Query {
    fn share(&self) -> Result<Query, AllocError> {
        self.copy()
    }
}

impl Share for QueryVar {
    fn share(&self) -> Result<QueryVar, AllocError> {
        self.copy()
    }
}

impl Share for QueryFunction {
    fn share(&self) -> Result<QueryFunction, AllocError> {
        self.copy()
    }
}

impl Share for QueryParam {
    fn share(&self) -> Result<QueryParam, AllocError> {
        self.copy()
    }
}

impl Share for Prefixes {
    fn share(&self) -> Result<Prefixes, AllocError> {
        self.copy()
    }
}

/// The list of the same queries.
pub fn copy_query_list(items: &List<Query>) -> Result<List<Query>, AllocError>
    ensures { IfOk result (λ copy. copy ≡ items.now) }
{
    copy_list(items)
}

/// The list of the same variables.
pub fn copy_query_var_list(items: &List<QueryVar>) -> Result<List<QueryVar>, AllocError>
    ensures { IfOk result (λ copy. copy ≡ items.now) }
{
    copy_list(items)
}

/// The list of the same functions.
pub fn copy_query_function_list(
    items: &List<QueryFunction>,
) -> Result<List<QueryFunction>, AllocError>
    ensures { IfOk result (λ copy. copy ≡ items.now) }
{
    copy_list(items)
}

/// The list of the same parameters.
pub fn copy_query_param_list(items: &List<QueryParam>) -> Result<List<QueryParam>, AllocError>
    ensures { IfOk result (λ copy. copy ≡ items.now) }
{
    copy_list(items)
}

/// The list of the same prefixes.
pub fn copy_prefixes_list(items: &List<Prefixes>) -> Result<List<Prefixes>, AllocError>
    ensures { IfOk result (λ copy. copy ≡ items.now) }
{
    copy_list(items)
}
