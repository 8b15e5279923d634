// An object's record in bytes: the record that bytes say, whether there is such a record, and the bytes of a record.
use crate::records::Stored;
use lock_table::{Monitor, ObjectRecord};

// How often this layout has changed.
pub(crate) const OBJECT_REVISION: u32 = 0;

// How many bytes a record has.
pub(crate) const OBJECT_SIZE: usize = 11;

// Its bytes stand in the order of the layout in specs/ObjectBytes.antt.
impl Stored<OBJECT_SIZE> for ObjectRecord {
    ghost use Rattle.std.specs.Prelude.{refl};
    ghost use Rattle.lock_table.specs.Record.{no_object};
    ghost use Rattle.table_bytes.specs.ObjectBytes.{object_layout, object_of, object_known};

    ghost layout = { object_layout };

    ghost empty = { no_object };

    ghost said = { object_of };

    ghost known = { object_known };

    ghost sized = { refl };

    fn from_bytes(stored: &[u8; OBJECT_SIZE]) -> ObjectRecord {
        let [
            w0,
            w1,
            w2,
            w3,
            flag,
            holder,
            d0,
            d1,
            entry,
            contention,
            waiting,
        ] = *stored;
        ObjectRecord {
            word: u32::from_le_bytes([w0, w1, w2, w3]),
            monitor: Monitor {
                depth: u16::from_le_bytes([d0, d1]),
                holder,
                entry,
                contention,
                waiting,
            },
            flag: flag == 1,
        }
    }

    // It has a flag that there is.
    fn is_known(stored: &[u8; OBJECT_SIZE]) -> bool {
        let [_, _, _, _, flag, ..] = *stored;
        flag <= 1
    }

    #[tactic(auto, unfolding(crate::specs::ObjectBytes::flag_byte))]
    fn to_bytes(self) -> [u8; OBJECT_SIZE] {
        let monitor = self.monitor;
        let [w0, w1, w2, w3] = self.word.to_le_bytes();
        let [d0, d1] = monitor.depth.to_le_bytes();
        [
            w0,
            w1,
            w2,
            w3,
            u8::from(self.flag),
            monitor.holder,
            d0,
            d1,
            monitor.entry,
            monitor.contention,
            monitor.waiting,
        ]
    }
}
