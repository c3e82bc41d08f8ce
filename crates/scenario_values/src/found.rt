//! Finds the entry of a name.
ghost use Rattle.std.specs.Prelude.{◌≡◌, ◌≤◌, length};
ghost use Rattle.scenario_values.specs.Scenario.{entry_of};

use crate::chain::Chain;
use crate::text::Text;
use indexmap::IndexMap;

/// The number of the entry of a name.
pub fn find_entry(entries: &IndexMap<Text, Chain>, name: &str) -> Option<usize>
    requires { length entries.now.entries ≤ 256 }
    ensures { result ≡ entry_of entries.now.entries name.now }
{
    let mut entry = 0;
    for (other, _) in entries {
        if name == other.as_str() {
            return Some(entry);
        }
        entry += 1;
    }
    None
}
