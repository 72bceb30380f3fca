ghost use Rattle.std.specs.List.{list_all};
ghost use Rattle.std.specs.Prelude.{◌≡◌, true, false, [], ◌++◌, ◌+◌, ◌-◌, ◌*◌, ◌≤◌, ◌<◌, min, length, take, drop, get_or};
ghost use Rattle.names.specs.Date.{date_size};
ghost use Rattle.names.specs.Key.{names_used};
ghost use Rattle.names.specs.Name.{long_name_most};
ghost use Rattle.names.specs.Text.{escapes, escape_by, escape};
ghost use Rattle.store.specs.Image.{numbers_size, bytes_size, machine_in};
ghost use Rattle.store.specs.code.Index.{table_at, ListedRows};
ghost use Rattle.store.specs.code.Layout.{row_fits, change_count};
ghost use Rattle.store.specs.Machine.{changes_most};
ghost use Rattle.store.specs.Outcomes.{buffers};
ghost use Rattle.store.specs.code.Rows.{depth_at, key_at, value_at};
ghost use Rattle.store.specs.code.Withdrawal.{Valid};
ghost use Rattle.snapshot.specs.code.Writing.{Put, Emitted, place_most, is_plain_byte, NamesAt, OwnAt, RepeatAt, head_text, repeat_head, repeat_text, value_text, rest_text, own_names_of, row_text, close_text, closing_text, entities_text, odm_text, clinical_text, front_text, list_text};

use names::bytes::put_bytes;
use names::name::LONG_NAME_MOST;
use store::rows::{depth_names, key_place, row_number};
use store::sizes::{DEPTH, END, PACKED_AT, STUDY_AT, VERSION_AT};

// Whether a byte is written as it is: `& < > "` are escaped.
fn is_plain(c: u8) -> bool
    ensures { result ≡ is_plain_byte c }
{
    !matches!(c, b'&' | b'<' | b'>' | b'"')
}

// Whether nothing in a value is escaped.
fn all_plain(s: &[u8]) -> bool
    ensures { result ≡ list_all is_plain_byte s.now }
{
    s.iter().all(|c| is_plain(*c))
}

// The opening tag of a depth up to its first value.
fn head(depth: usize) -> &'static [u8]
    requires { (1 ≤ depth) × (depth ≤ 5) }
    ensures { (result.now ≡ head_text depth) × (length result.now ≤ 40) }
{
    match depth {
        1 => b"<SubjectData SubjectKey=\"",
        2 => b"<StudyEventData StudyEventOID=\"",
        3 => b"<FormData FormOID=\"",
        4 => b"<ItemGroupData ItemGroupOID=\"",
        _ => b"<ItemData ItemOID=\"",
    }
}

// What stands between the first value and the repeat key of a depth.
fn repeat_head(depth: usize) -> &'static [u8]
    requires { (2 ≤ depth) × (depth ≤ 4) }
    ensures { (result.now ≡ repeat_head depth) × (length result.now ≤ 40) }
{
    match depth {
        2 => b"\" StudyEventRepeatKey=\"",
        3 => b"\" FormRepeatKey=\"",
        _ => b"\" ItemGroupRepeatKey=\"",
    }
}

// The closing tag of a depth.
fn close(depth: usize) -> &'static [u8]
    requires { (1 ≤ depth) × (depth ≤ 4) }
    ensures { (result.now ≡ close_text depth) × (length result.now ≤ 20) }
{
    match depth {
        1 => b"</SubjectData>\n",
        2 => b"</StudyEventData>\n",
        3 => b"</FormData>\n",
        _ => b"</ItemGroupData>\n",
    }
}

// The place behind the packed name at p.
fn packed_end(bytes: &[u8], p: usize) -> usize
    requires { (p < length bytes.now) × (length bytes.now ≡ bytes_size) }
    ensures { result ≡ p + 1 + get_or bytes.now p 0 }
{
    p + 1 + (bytes[p] as usize)
}

// A change by its row, in buffers of the right lengths.
#[derive(Clone, Copy)]
struct Row<'a> {
    numbers: &'a [u32],
    bytes: &'a [u8],
    r: usize,
    ghost numbers_len: { length numbers.now ≡ numbers_size },
    ghost bytes_len: { length bytes.now ≡ bytes_size },
    ghost few: { r < changes_most },
    ghost fits: { row_fits numbers.now bytes.now r ≡ true },
}

impl Row<'_> {
    fn depth(self) -> usize
        ensures { result ≡ depth_at self.entry.numbers.now self.entry.r }
    {
        row_number(self.numbers, DEPTH, self.r)
    }

    // The place of name k of its key.
    fn name_place(self, k: usize) -> usize
        requires { k ≤ names_used (depth_at self.numbers.now self.r) }
        ensures { NamesAt self.entry.numbers.now self.entry.bytes.now self.entry.r k result }
    {
        let mut p = key_place(self.numbers, self.bytes, self.r);
        for i in 0..k {
            p = packed_end(self.bytes, p);
        }
        p
    }

    // The place of the first name that its key adds to its parent's.
    fn own_place(self) -> usize
        ensures { OwnAt self.entry.numbers.now self.entry.bytes.now self.entry.r result }
    {
        let d = self.depth();
        let k = depth_names(d - 1);
        self.name_place(k)
    }

    // The depth that is open behind its entity: of an item nothing stays open.
    fn open_after(self) -> usize
        ensures { result ≡ min (depth_at self.entry.numbers.now self.entry.r) 4 }
    {
        self.depth().min(4)
    }
}

// The study or the version of a valid image, by the places of its length and of its first byte.
fn long_name<'a>(numbers: &[u32], bytes: &'a [u8], length_at: usize, at: usize) -> &'a [u8]
    requires { (length_at < length numbers.now) × (get_or numbers.now length_at 0 ≤ long_name_most) × (at + long_name_most ≤ length bytes.now) }
    ensures { (result.now ≡ take (get_or numbers.now length_at 0) (drop at bytes.now)) × (length result.now ≤ long_name_most) }
{
    let to = at + numbers[length_at] as usize;
    &bytes[at..to]
}

// A lent output, and the place behind what was put into it.
#[derive(Drop)]
struct Output<'a> {
    bytes: &'a mut [u8],
    at: usize,
}

impl Output<'_> {
    // Writes s, if it fits whole, and passes its place in any case: so a walk that finds no room measures the text.
    fn put(&mut self, s: &[u8])
        requires { self.old.at ≤ place_most }
        ensures { Put self.old self.new s.now }
    {
        let end = self.at + s.len();
        if end <= self.bytes.len() {
            let bytes = &mut *self.bytes;
            put_bytes(bytes, self.at, s);
        }
        self.at = end;
    }

    // Writes a byte of a value. Each text is put where it is chosen: compiled, it is one store or two. By the text that a function answers, a snapshot of
    // values of quotes takes a half longer.
    fn put_byte(&mut self, c: u8)
        requires { self.old.at ≤ place_most }
        ensures { (Put self.old self.new (escape_by escapes c)) × (self.new.at ≤ self.old.at + 6) }
    {
        match c {
            b'&' => self.put(b"&amp;"),
            b'<' => self.put(b"&lt;"),
            b'>' => self.put(b"&gt;"),
            b'"' => self.put(b"&quot;"),
            _ => self.put(&[c]),
        }
    }

    // Writes a value byte by byte.
    fn put_each(&mut self, s: &[u8])
        requires { self.old.at + 6 * length s.now ≤ place_most }
        ensures { (Put self.old self.new (escape s.now)) × (self.new.at ≤ self.old.at + 6 * length s.now) }
    {
        // By an output of its own: the place in the lent one is read and written again for each byte, 6 percent more instructions for a snapshot of quotes.
        let mut rest = Output {
            bytes: &mut *self.bytes,
            at: self.at,
        };
        for c in s {
            rest.put_byte(*c);
        }
        self.at = rest.at;
    }

    // Writes a value, escaped. Most have nothing to escape and are written whole.
    fn put_escaped(&mut self, s: &[u8])
        requires { self.old.at + 6 * length s.now ≤ place_most }
        ensures { (Put self.old self.new (escape s.now)) × (self.new.at ≤ self.old.at + 6 * length s.now) }
    {
        if all_plain(s) {
            self.put(s)
        } else {
            self.put_each(s)
        }
    }

    // Ends an opening tag behind its first value, with its repeat key if it has one.
    fn put_repeat(&mut self, depth: usize, n: &[u8])
        requires at_bound { (self.old.at + 200000 ≤ place_most) × (length n.now ≤ 60000) × (2 ≤ depth) × (depth ≤ 4) }
        requires n_value { escape n.now ≡ n.now }
        ensures { (Put self.old self.new (repeat_text depth n.now)) × (self.new.at ≤ self.old.at + 70000) }
    {
        if n.is_empty() {
            return self.put(b"\">\n");
        }
        self.put(repeat_head(depth));
        self.put(n);
        self.put(b"\">\n");
    }

    // Ends an item's tag behind its OID: with its value, or null.
    fn put_value(&mut self, v: &[u8])
        requires { (self.old.at + 500000 ≤ place_most) × (length v.now ≤ 60000) }
        ensures { (Put self.old self.new (value_text v.now)) × (self.new.at ≤ self.old.at + 370000) }
    {
        if v.is_empty() {
            return self.put(b"\" IsNull=\"Yes\"/>\n");
        }
        self.put(b"\" Value=\"");
        self.put_escaped(v);
        self.put(b"\"/>\n");
    }

    // Ends an opening tag of depth 2 to 4 behind its first name: the repeat key stands at q.
    fn put_level(&mut self, row: Row, q: usize)
        requires at_bound { (self.old.at + 200000 ≤ place_most) × (2 ≤ depth_at row.numbers.now row.r) × (depth_at row.numbers.now row.r ≤ 4) }
        requires repeat_at { RepeatAt row.numbers.now row.bytes.now row.r q }
        ensures { (Put self.old self.new (repeat_text (depth_at row.entry.numbers.now row.entry.r) (get_or (own_names_of (depth_at row.entry.numbers.now row.entry.r) (key_at row.entry.numbers.now row.entry.bytes.now row.entry.r)) 1 []))) × (self.new.at ≤ self.old.at + 70000) }
    {
        let s = q + 1;
        let t = packed_end(row.bytes, q);
        let depth = row.depth();
        self.put_repeat(depth, &row.bytes[s..t]);
    }

    // Ends the opening tag of an entity behind its first name, which ends at q.
    fn put_rest(&mut self, row: Row, q: usize)
        requires at_bound { self.old.at + 600000 ≤ place_most }
        requires names_at { NamesAt row.numbers.now row.bytes.now row.r (names_used (depth_at row.numbers.now row.r - 1) + 1) q }
        ensures { (Put self.old self.new (rest_text (depth_at row.entry.numbers.now row.entry.r) (own_names_of (depth_at row.entry.numbers.now row.entry.r) (key_at row.entry.numbers.now row.entry.bytes.now row.entry.r)) (value_at row.entry.numbers.now row.entry.bytes.now row.entry.r))) × (self.new.at ≤ self.old.at + 400000) }
    {
        let depth = row.depth();
        match depth {
            1 => self.put(b"\">\n"),
            5 => {
                let to = PACKED_AT + row_number(row.numbers, END, row.r);
                self.put_value(&row.bytes[q..to]);
            }
            _ => self.put_level(row, q),
        }
    }

    // Writes the opening tag of the entity that a change made or wrote.
    fn put_row(&mut self, row: Row)
        requires { self.old.at + 800000 ≤ place_most }
        ensures { (Put self.old self.new (row_text row.entry.numbers.now row.entry.bytes.now row.entry.r)) × (self.new.at ≤ self.old.at + 500000) }
    {
        let p = row.own_place();
        let q = packed_end(row.bytes, p);
        let depth = row.depth();
        self.put(head(depth));
        self.put(&row.bytes[p + 1..q]);
        self.put_rest(row, q);
    }

    // Writes the closing tags of the depths from `opened` down to above `depth`.
    fn put_closing(&mut self, opened: usize, depth: usize)
        requires { (self.old.at + 100 ≤ place_most) × (opened ≤ 4) }
        ensures { (Put self.old self.new (closing_text opened depth)) × (self.new.at ≤ self.old.at + 80) }
    {
        for k in (depth..opened).rev() {
            self.put(close(k + 1));
        }
    }

    // Writes the closing tags in front of the entity that a change made or wrote, where the innermost open one has depth `opened`, and its
    // opening tag.
    fn put_entity(&mut self, row: Row, opened: usize)
        requires { (self.old.at + 900000 ≤ place_most) × (opened ≤ 4) }
        ensures { (Put self.old self.new (closing_text opened (depth_at row.entry.numbers.now row.entry.r - 1) ++ row_text row.entry.numbers.now row.entry.bytes.now row.entry.r)) × (self.new.at ≤ self.old.at + 550000) }
    {
        let depth = row.depth();
        self.put_closing(opened, depth - 1);
        self.put_row(row);
    }

    // Writes the tags of all entities of the index, which has n.
    fn put_entities(&mut self, numbers: &[u32], bytes: &[u8], index: &[u32], n: usize)
        requires valid { Valid numbers.now bytes.now }
        requires listed_rows { ListedRows (change_count numbers.now) index.now n }
        requires at_bound { self.old.at ≤ 10000 }
        ensures { (Put self.old self.new (entities_text 0 (table_at numbers.now bytes.now index.now n))) × (self.new.at ≤ 300000000) }
    {
        let mut opened = 0;
        for r in &index[..n] {
            let r = *r as usize;
            let row = Row { numbers, bytes, r };
            self.put_entity(row, opened);
            opened = row.open_after();
        }
        self.put_closing(opened, 0);
    }

    // Writes the declaration and the opening tag of ODM.
    fn put_odm(&mut self, oid: &[u8], date: &[u8])
        requires { (self.old.at ≡ 0) × (length oid.now ≤ long_name_most) × (length date.now ≤ date_size) }
        ensures { (Put self.old self.new (odm_text oid.now date.now)) × (self.new.at ≤ 2000) }
    {
        self.put(
            b"<?xml version=\"1.0\" encoding=\"UTF-8\"?>\n<ODM xmlns=\"http://www.cdisc.org/ns/odm/v1.3\" FileType=\"Snapshot\" FileOID=\"",
        );
        self.put_escaped(oid);
        self.put(b"\" CreationDateTime=\"");
        self.put_escaped(date);
        self.put(b"\" ODMVersion=\"1.3.2\">\n");
    }

    // Writes the opening tag of ClinicalData.
    fn put_clinical(&mut self, study: &[u8], version: &[u8])
        requires { (self.old.at ≤ 2000) × (length study.now ≤ long_name_most) × (length version.now ≤ long_name_most) }
        ensures { (Put self.old self.new (clinical_text study.now version.now)) × (self.new.at ≤ self.old.at + 2000) }
    {
        self.put(b"<ClinicalData StudyOID=\"");
        self.put_escaped(study);
        self.put(b"\" MetaDataVersionOID=\"");
        self.put_escaped(version);
        self.put(b"\">\n");
    }

    // Writes what stands in front of the entities of a valid image.
    fn put_front(&mut self, numbers: &[u32], bytes: &[u8], oid: &[u8], date: &[u8])
        requires valid { Valid numbers.now bytes.now }
        requires oid_len_bound { (self.old.at ≡ 0) × (length oid.now ≤ long_name_most) × (length date.now ≤ date_size) }
        ensures { (Put self.old self.new (front_text (machine_in (buffers numbers.now bytes.now)) oid.now date.now)) × (self.new.at ≤ 10000) }
    {
        let study = long_name(numbers, bytes, STUDY_AT, 0);
        let version = long_name(numbers, bytes, VERSION_AT, LONG_NAME_MOST);
        self.put_odm(oid, date);
        self.put_clinical(study, version);
    }

    // Writes the entities of the first n rows of an index as the snapshot of a valid image.
    fn put_snapshot(
        &mut self,
        numbers: &[u32],
        bytes: &[u8],
        index: &[u32],
        n: usize,
        oid: &[u8],
        date: &[u8],
    )
        requires valid { Valid numbers.now bytes.now }
        requires listed_rows { ListedRows (change_count numbers.now) index.now n }
        requires oid_len_bound { (self.old.at ≡ 0) × (length oid.now ≤ long_name_most) × (length date.now ≤ date_size) }
        ensures { (Put self.old self.new (list_text (machine_in (buffers numbers.now bytes.now)) (table_at numbers.now bytes.now index.now n) oid.now date.now)) × (self.new.at ≤ 400000000) }
    {
        self.put_front(numbers, bytes, oid, date);
        self.put_entities(numbers, bytes, index, n);
        self.put(b"</ClinicalData>\n</ODM>\n");
    }
}

// Writes the entities of the first n rows of an index as the snapshot of a valid image.
pub fn emit_snapshot(
    numbers: &[u32],
    bytes: &[u8],
    index: &[u32],
    n: usize,
    oid: &[u8],
    date: &[u8],
    out: &mut [u8],
) -> usize
    requires valid { Valid numbers.now bytes.now }
    requires listed_rows { ListedRows (change_count numbers.now) index.now n }
    requires oid_len_bound { (length oid.now ≤ long_name_most) × (length date.now ≤ date_size) }
    ensures { (Emitted out.old 0 (list_text (machine_in (buffers numbers.now bytes.now)) (table_at numbers.now bytes.now index.now n) oid.now date.now) out.new result) × (result ≤ 400000000) }
{
    let mut text = Output { bytes: out, at: 0 };
    text.put_snapshot(numbers, bytes, index, n, oid, date);
    text.at
}
