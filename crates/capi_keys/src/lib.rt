// The C interface: key words from seeds. Each entry hands its rows on and promises what the function behind it promises. A slice passes as a
// pointer and a count.
#![tactic(auto)]

ghost use Rattle.std.specs.Prelude.{◌≡◌, length};
ghost use Rattle.stretch.specs.Stretch.{stretch_answer, stretched, stretch_array_answer, stretched_array};
ghost use Rattle.stretch.specs.Load.{load_answer, load_key, load_message, load_array_answer, load_array_key, load_array_message};

use answers::answer;

#[unsafe(no_mangle)]
pub extern "C" fn pairing_stretch(w: u32, seed: u32, out: &mut [u32]) -> u32
    ensures { (result ≡ stretch_answer w (length out.old))
        × (out.new ≡ stretched w seed out.old) }
{
    answer(stretch::stretch(w, seed, out))
}

#[unsafe(no_mangle)]
pub extern "C" fn pairing_stretch_array(w: u32, seed: &[u32], out: &mut [u32]) -> u32
    ensures { (result ≡ stretch_array_answer w (length seed.now) (length out.old))
        × (out.new ≡ stretched_array w seed.now out.old) }
{
    answer(stretch::stretch::<&[u32]>(w, seed, out))
}

#[unsafe(no_mangle)]
pub extern "C" fn pairing_load(w: u32, seed: u32, key: &mut [u32], message: &mut [u32]) -> u32
    ensures { (result ≡ load_answer w (length key.old) (length message.old))
        × (key.new ≡ load_key w seed key.old message.old)
        × (message.new ≡ load_message w seed key.old message.old) }
{
    answer(stretch::load(w, seed, key, message))
}

#[unsafe(no_mangle)]
pub extern "C" fn pairing_load_array(
    w: u32,
    seed: &[u32],
    key: &mut [u32],
    message: &mut [u32],
) -> u32
    ensures { (result ≡ load_array_answer w (length seed.now) (length key.old) (length message.old))
        × (key.new ≡ load_array_key w seed.now key.old message.old)
        × (message.new ≡ load_array_message w seed.now key.old message.old) }
{
    answer(stretch::load::<&[u32]>(w, seed, key, message))
}
