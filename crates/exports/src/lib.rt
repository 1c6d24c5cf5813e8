// The calls as include/rename.h declares them, answered in numbers; `exports_c` has them for C to link.
// Each call is a function of its own, with all its clauses, here and there: C calls those of `exports_c` by
// their names, and a crate is a library or a static one.
//
// `name` has the call Name, `order` the call Order, `forms` the calls Whole form, Children only and
// Single helper, `page` the call Page, `read` reading alone, and `tell` how an answer is told.
#![tactic(auto)]

pub mod forms;
pub mod name;
pub mod order;
pub mod page;
pub mod read;
pub mod tell;
