//! What every piece of a member is read with.

use list::list::List;
use reports::Report;

/// A member that is being read: the reader, whether the script is TypeScript, and where rules are reported. The context
/// is lent beside it, since a guard holds it alone.
#[derive(Drop)]
pub struct Reading<'r, 'l, S> {
    pub script: &'r mut S,
    pub is_ts: bool,
    pub reports: &'r mut List<'l, Report>,
}
