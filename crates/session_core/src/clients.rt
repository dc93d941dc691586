//! The clients that have joined.
ghost use Rattle.std.specs.Prelude.{◌≡◌, filter};
ghost use Rattle.session_ops.specs.Numbers.{is_in, is_other};

/// Whether a client is among those.
pub(crate) fn is_in(client: u32, joined: &[u32]) -> bool
    ensures { result ≡ is_in client joined.now }
{
    for member in joined {
        if *member == client {
            return true;
        }
    }
    false
}

/// Takes a client away.
pub(crate) fn remove(joined: &mut Vec<u32>, client: u32)
    ensures { joined.new.items ≡ filter (is_other client) joined.old.items }
{
    joined.retain(|member| *member != client);
}
