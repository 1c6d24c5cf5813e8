// Name maps: what a map makes of a name.
ghost use Rattle.std.specs.Prelude.{◌≡◌, ◌≤◌, length};
ghost use Rattle.names.specs.Maps.{NameMap, renamed, Origin, map_bytes, MapOf};
ghost use Rattle.names.specs.Names.{name_limit};

use crate::NAME_WIDTH;
use crate::bytes::{number, same};

// What a map makes of a name: a part of the map, by the first entry of the name, which is the
// newest; or the name itself where it has none.
pub fn lookup<'a>(name: &'a [u8], map: &'a [u8]) -> &'a [u8]
    requires { (m : NameMap) × MapOf map.now m }
    ensures result_value { (m : NameMap) → map.now ≡ map_bytes m → result.now ≡ renamed m name.now }
    ensures result_len_bound { length name.now ≤ name_limit → length result.now ≤ name_limit }
    ensures origin { (m : NameMap) → map.now ≡ map_bytes m → Origin m name.entry map.entry result }
{
    let mut at = 0;
    // No range: the place moves by the length of an entry.
    while at < map.len() {
        let old = at + NAME_WIDTH;
        let mid = old + number(map, at, NAME_WIDTH);
        let new = mid + NAME_WIDTH;
        let end = new + number(map, mid, NAME_WIDTH);
        if same(name, &map[old..mid]) {
            return &map[new..end];
        }
        at = end;
    }
    name
}
