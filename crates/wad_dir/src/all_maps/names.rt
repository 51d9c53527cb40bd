//! The name of a map as text.

ghost use Rattle.std.specs.Prelude.{◌≡◌, IsTrue};
ghost use Rattle.wad_dir.specs.AllMaps.Maps.{is_map_name};
ghost use Rattle.wad_dir.specs.AllMaps.Names.{name_before_nul};

/// The bytes up to the first NUL.
fn before_nul(name: &[u8]) -> &[u8]
    ensures { result.now ≡ name_before_nul name.now }
{
    for (k, c) in name.iter().enumerate() {
        if *c == 0 {
            return name.split_at(k).0;
        }
    }
    name
}

/// The name of a map, whose bytes are visible, up to its first NUL.
pub fn text_of(name: &[u8; 8]) -> &str
    requires { IsTrue (is_map_name name.now) }
    ensures { result.now ≡ name_before_nul name.now }
{
    match str::from_utf8(before_nul(name)) {
        Ok(text) => text,
        Err(_) => unreachable!(),
    }
}
