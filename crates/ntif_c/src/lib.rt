// The three calls for C on x86-64, as include/ntif.h declares them: each is the library's, with its promise.
#![tactic(auto)]

ghost use Rattle.std.specs.Prelude.{◌≡◌};
ghost use Rattle.model.specs.Exports.{check_bytes, start_bytes, step_bytes};

// check: the sets are little-endian words of 8 bytes.
#[unsafe(no_mangle)]
pub extern "C" fn ntif_check(image: &[u8], sets: &mut [u8]) -> u64
    ensures { record { answer = result; lent = sets.new } ≡ check_bytes image.now sets.old }
{
    ntif::ntif_check(image, sets)
}

// start: parameters and store are little-endian words of 4 bytes.
#[unsafe(no_mangle)]
pub extern "C" fn ntif_start(image: &[u8], params: &[u8], store: &mut [u8]) -> u64
    ensures { record { answer = result; lent = store.new } ≡ start_bytes image.now params.now store.old }
{
    ntif::ntif_start(image, params, store)
}

// step: store, script and label are little-endian words of 4 bytes.
#[unsafe(no_mangle)]
pub extern "C" fn ntif_step(
    image: &[u8],
    q: u32,
    store: &mut [u8],
    script: &[u8],
    budget: u32,
    label: &mut [u8],
) -> u64
    ensures { record { answer = result; store = store.new; label = label.new } ≡ step_bytes image.now q store.old script.now budget label.old }
{
    ntif::ntif_step(image, q, store, script, budget, label)
}
