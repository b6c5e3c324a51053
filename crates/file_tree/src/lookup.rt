//! Files by their paths.

ghost use Rattle.std.specs.Prelude.{◌≡◌, find, option_copied};
ghost use Rattle.wedge_base.specs.Names.{same};
ghost use Rattle.file_tree.specs.Lookup.{AreAscending};

use wedge_base::FileEntry;

/// The file of a path, if there is one, among files whose paths ascend in byte order. Of n files it
/// looks at about log n.
pub fn file_at<'a>(files: &'a [FileEntry], path: &[u8]) -> Option<&'a FileEntry>
    requires { AreAscending files.now }
    ensures { option_copied result ≡ find (λ f. same f.path path.now) files.now }
{
    match files.binary_search_by(|f| f.path.as_slice().cmp(path)) {
        Ok(position) => Some(&files[position]),
        Err(_) => None,
    }
}
