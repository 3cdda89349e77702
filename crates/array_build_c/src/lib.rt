// THE SECOND BUILD FOR THE COUNTS of docs/BENCHMARKS.md: what its archive exports. Each export is the call of `array_build` of the same name. They are
// proved safe and promise no words, as that crate (docs/DECISIONS.md 53).
#![tactic(auto)]

#[unsafe(no_mangle)]
pub extern "C" fn array_build_set(store: &mut [u32], second: u32, tag: u32, reading: u32) -> u32 {
    array_build::array_build_set(store, second, tag, reading)
}

#[unsafe(no_mangle)]
pub extern "C" fn array_build_clear(store: &mut [u32], second: u32, tag: u32) -> u32 {
    array_build::array_build_clear(store, second, tag)
}

#[unsafe(no_mangle)]
pub extern "C" fn array_build_update(
    store: &mut [u32],
    second: u32,
    tag: u32,
    reading: u32,
) -> u32 {
    array_build::array_build_update(store, second, tag, reading)
}
