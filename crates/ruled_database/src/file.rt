//! The pages of a database's file.

ghost use Rattle.std.specs.Prelude.{◌≡◌, ◌≤◌, length, slice_index, false, true, MatchOption, option_map, ⊤, ◌<◌, drop, IfSome};
ghost use Rattle.sqlite_pages.specs.PageMap.{IsUsableSize};
ghost use Rattle.ruled_database.specs.Trees as spec;
ghost use Rattle.ruled_database.specs.Trees.{has_encoding, cell_at, of_kind, page_of, tree_page};
ghost use Rattle.sqlite_format.specs.Cell.{cell_size};
ghost use Rattle.sqlite_format.specs.Kinds.{page_flag};

use crate::encoding::Encoding;
use sqlite_format::bytes::{get_u16, get_u32};
use sqlite_format::page::pointers;
use sqlite_format::{Kind, Node, Tree, cell};

/// How many bytes the header of a file has.
const HEADER: usize = 100;

/// The bytes of a file, and how large its pages are.
#[derive(Clone, Copy)]
pub(crate) struct File<'a> {
    bytes: &'a [u8],
    page_size: usize,
    usable: usize,
    ghost sized: { page_size ≡ spec.bytes_of_page bytes.now },
    ghost used: { usable ≡ spec.usable_size bytes.now },
    ghost fits: { IsUsableSize usable },
    ghost within: { usable ≤ page_size },
    ghost small: { page_size ≤ 65536 },
    ghost headed: { 100 ≤ length bytes.now },
}

/// Whether these are the bytes of a database in WAL mode, whose latest rows may be in a log beside its
/// file.
pub fn keeps_log(bytes: &[u8]) -> bool
    ensures { result ≡ spec.keeps_log bytes.now }
{
    matches!(bytes.get(18), Some(2))
}

// How many bytes a page has.
fn page_size(bytes: &[u8]) -> usize
    requires { 18 ≤ length bytes.now }
    ensures value { result ≡ spec.bytes_of_page bytes.now }
    ensures fits { result ≤ 65536 }
{
    match get_u16(bytes, 16) {
        1 => 65536,
        size => size,
    }
}

impl<'a> File<'a> {
    ghost use Rattle.ruled_database.specs.Tables.{encoding_of};

    #[tactic(auto, unfolding(crate::specs::Trees::has_header))]
    /// The file of these bytes, where they begin with the header of a database.
    pub(crate) fn of(bytes: &'a [u8]) -> Option<File<'a>>
        ensures { MatchOption result (spec.has_header bytes.now ≡ false) (λ file. (spec.has_header bytes.now ≡ true) × (file.bytes.now ≡ bytes.now)) }
    {
        if !bytes.starts_with(b"SQLite format 3\0") || bytes.len() < HEADER {
            return None;
        }
        let page_size = page_size(bytes);
        let usable = page_size.saturating_sub(usize::from(bytes[20]));
        if usable < 480 {
            return None;
        }
        Some(File {
            bytes,
            page_size,
            usable,
        })
    }

    /// How many bytes of a page are used.
    pub(crate) fn usable(&self) -> usize
        ensures value { result ≡ spec.usable_size self.now.bytes.now }
        ensures fits { IsUsableSize result }
    {
        self.usable
    }

    /// Whether its texts are in an encoding that the format has.
    pub(crate) fn has_encoding(&self) -> bool
        ensures { result ≡ has_encoding self.now.bytes.now }
    {
        get_u32(self.bytes, 56) <= 3
    }

    /// How its texts are written.
    pub(crate) fn encoding(&self) -> Encoding
        ensures { result ≡ encoding_of self.now.bytes.now }
    {
        match get_u32(self.bytes, 56) {
            2 => Encoding::Utf16Low,
            3 => Encoding::Utf16High,
            _ => Encoding::Utf8,
        }
    }

    /// How many pages it has.
    pub(crate) fn pages(&self) -> usize
        ensures { result ≡ spec.page_count self.now.bytes.now }
    {
        self.bytes.len() / self.page_size
    }

    #[tactic(auto, unfolding(crate::specs::Trees::page))]
    /// The used bytes of the page of this number.
    pub(crate) fn page(&self, number: u32) -> Option<&'a [u8]>
        ensures bytes { option_map (λ page. page.now) result ≡ spec.page self.now.bytes.now number }
        ensures usable { MatchOption result ⊤ (λ page. length page.now ≡ spec.usable_size self.now.bytes.now) }
    {
        let end = number as usize * self.page_size;
        if number == 0 || end > self.bytes.len() {
            return None;
        }
        let start = end - self.page_size;
        Some(&self.bytes[start..start + self.usable])
    }
}

// The page of this kind, where the pointers to its cells lie within it.
#[tactic(auto, unfolding(sqlite_format::specs::Page::cell_count))]
fn node_of_kind(kind: Kind, bytes: &[u8], header: usize) -> Option<Node<'_>>
    requires usable { IsUsableSize (length bytes.now) }
    requires header { header ≤ 100 }
    requires flagged { slice_index bytes.now header ≡ page_flag kind }
    ensures { option_map page_of result ≡ of_kind kind bytes.now header }
{
    let count = get_u16(bytes, header + 3);
    if pointers(kind.leaf, header) + 2 * count > bytes.len() {
        return None;
    }
    Some(Node {
        bytes,
        header,
        kind,
        count,
    })
}

// The page of a tree with these bytes, whose header begins here, where the pointers to its cells lie within it.
#[tactic(auto, unfolding(crate::specs::Trees::tree_page))]
pub(crate) fn node_of(tree: Tree, bytes: &[u8], header: usize) -> Option<Node<'_>>
    requires usable { IsUsableSize (length bytes.now) }
    requires header { header ≤ 100 }
    ensures { option_map page_of result ≡ tree_page tree bytes.now header }
{
    let leaf = Kind { tree, leaf: true };
    let interior = Kind { tree, leaf: false };
    if bytes[header] == leaf.flag() {
        node_of_kind(leaf, bytes, header)
    } else if bytes[header] == interior.flag() {
        node_of_kind(interior, bytes, header)
    } else {
        None
    }
}

// The bytes from this place on.
fn tail_of(bytes: &[u8], offset: usize) -> &[u8]
    ensures { result.now ≡ drop offset bytes.now }
{
    if offset < bytes.len() {
        &bytes[offset..]
    } else {
        &[]
    }
}

// The bytes from the cell at this place of a page on, where it ends within the page.
#[tactic(auto, using(sqlite_format::proofs::CellLemmas::cell_size_least), unfolding(crate::specs::Trees::cell_at, sqlite_format::specs::Page::cell_offset))]
pub(crate) fn cell_of<'a>(node: &Node<'a>, place: usize) -> Option<&'a [u8]>
    requires { place < node.now.count }
    ensures value { option_map (λ cell. cell.now) result ≡ cell_at (page_of node.now) place }
    ensures within { IfSome result (λ cell. cell_size node.now.kind (length node.now.bytes.now) cell.now ≤ length cell.now) }
    ensures child { IfSome result (λ cell. 4 ≤ length cell.now) }
{
    let pointer = pointers(node.kind.leaf, node.header) + 2 * place;
    let cell = tail_of(node.bytes, get_u16(node.bytes, pointer));
    cell::size(node.kind, node.bytes.len(), cell)?;
    Some(cell)
}
