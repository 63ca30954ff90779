//! Names of managers.
ghost use Rattle.std.specs.Prelude.{◌≡◌, ◌&&◌};
ghost use Rattle.std.specs.List.{list_all};
ghost use Rattle.ssa_model.specs.definitions.History.{is_name_byte, is_manager_name};

// Whether all bytes are printable ASCII.
fn are_name_bytes(bytes: &[u8]) -> bool
    ensures { result ≡ list_all is_name_byte bytes.now }
{
    for byte in bytes {
        if *byte < 32 || *byte > 126 {
            return false;
        }
    }
    true
}

/// Whether the text is a manager's name: 1 to 128 printable ASCII bytes.
pub fn is_manager_name(name: &str) -> bool
    ensures { result ≡ is_manager_name name.now }
{
    let len = name.len();
    1 <= len && (len <= 128 && are_name_bytes(name.as_bytes()))
}
