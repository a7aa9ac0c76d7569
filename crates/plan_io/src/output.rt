//! Writing a text whole.
ghost use Rattle.std.specs.Prelude.{◌≡◌, ◌≤◌, OnOk, OnErr};
ghost use Rattle.std.specs.Io.KnownBytes.{Appends};
ghost use Rattle.plan_io.specs.Causes.{HasCause};
ghost use Rattle.plan_io.specs.Writing.{AppendsFront};

use crate::sink::Sink;
use crate::store::Failed;

/// Writes all bytes, or a front of them where the sink failed.
pub fn write_all<K: Sink>(out: &mut K, bytes: &[u8]) -> Result<(), Failed>
    ensures ok { OnOk result (Appends (K.written out.old) (K.written out.new) bytes.now) }
    ensures err { OnErr result (AppendsFront (K.written out.old) (K.written out.new) bytes.now) }
    ensures limit { K.limit out.new ≡ K.limit out.old }
    ensures cause { HasCause (K.faults out.old) (K.faults out.new) result }
{
    let mut done = 0;
    while done < bytes.len() {
        done += out.put(&bytes[done..])?;
    }
    Ok(())
}
