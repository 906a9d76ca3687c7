// The receiver for programs in other languages: the C forms of the two entry points, as a static library.
#![tactic(auto)]

ghost use Rattle.std.specs.Prelude.{◌≡◌, length};
ghost use Rattle.paper.specs.Answer.{prescribed, answer, coded, left_by};
ghost use Rattle.paper.specs.Room.{need};

// The refusal's number, 0 for none, times 2 to the 32nd, plus the length of the file, which is written at the front of out.
#[unsafe(no_mangle)]
pub extern "C" fn bluffcradle_acknowledge(
    t: &[u8],
    pack: &[u8],
    date: &[u8],
    name: &[u8],
    out: &mut [u8],
) -> u64
    ensures value { result ≡ coded (answer t.now pack.now date.now name.now (length out.old)) }
    ensures out_after { out.new ≡ left_by (answer t.now pack.now date.now name.now (length out.old)) (prescribed t.now pack.now date.now name.now) out.old }
{
    ack::bluffcradle_acknowledge(t, pack, date, name, out)
}

// The need, in the same way.
#[unsafe(no_mangle)]
pub extern "C" fn bluffcradle_need(t: &[u8], pack: &[u8], date: &[u8], name: &[u8]) -> u64
    ensures { result ≡ coded (need t.now pack.now date.now name.now) }
{
    ack::bluffcradle_need(t, pack, date, name)
}
