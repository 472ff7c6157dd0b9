// Which document a location means.
ghost use Rattle.std.specs.Prelude.{◌≡◌, ◌-◌, ◌++◌, ◌∷◌, [], length, take, map, OnOk, IfOk, string_bytes, option_map, Option};
ghost use Rattle.dfdl_documents.specs.Locations.{stays, leads_up, is_plain, last_of, followed, resolved};
ghost use Rattle.dfdl_documents.specs.Locations.{segments_of, folder_of, is_rooted, behind_slashes, joined, root_of, name_from};
ghost use Rattle.dfdl_documents.specs.Shown.{texts};

use std::alloc::{AllocError, Global};

// Whether a segment leads nowhere.
fn stays(segment: &str) -> bool
    ensures { result ≡ stays segment.now }
{
    segment.is_empty() || segment == "."
}

// Whether a segment leads to the folder above.
fn leads_up(segment: &str) -> bool
    ensures { result ≡ leads_up segment.now }
{
    segment == ".."
}

// Whether the last of the segments is there, and is not `..`.
fn ends_plain(segments: &[&str]) -> bool
    ensures { result ≡ is_plain (last_of (texts segments.now)) }
{
    match segments.last() {
        Some(last) => !leads_up(last),
        None => false,
    }
}

// One segment more.
fn follow<'t>(segments: &mut Vec<&'t str>, segment: &'t str) -> Result<(), AllocError>
    ensures { OnOk result (texts segments.new.items ≡ followed (texts segments.old.items) segment.now) }
{
    if stays(segment) {
        return Ok(());
    }
    if leads_up(segment) && ends_plain(segments) {
        let _ = segments.pop();
        return Ok(());
    }
    segments.push(segment)?;
    Ok(())
}

// All segments of a text more.
fn follow_text<'t>(segments: &mut Vec<&'t str>, text: &'t str) -> Result<(), AllocError>
    ensures { OnOk result (texts segments.new.items
        ≡ resolved (texts segments.old.items) (segments_of text.now)) }
{
    for segment in text.split('/') {
        follow(segments, segment)?;
    }
    Ok(())
}

// The segments of a text, as they are written.
fn segments_of<'t>(alloc: Global, text: &'t str) -> Result<Vec<&'t str>, AllocError>
    ensures { IfOk result (λ segments. texts segments.items ≡ segments_of text.now) }
{
    text.split('/').collect(alloc)
}

// These segments more.
fn follow_all<'t>(segments: &mut Vec<&'t str>, others: &[&'t str]) -> Result<(), AllocError>
    ensures { OnOk result (texts segments.new.items
        ≡ resolved (texts segments.old.items) (texts others.now)) }
{
    for other in others {
        follow(segments, *other)?;
    }
    Ok(())
}

/// The segments of the folder of a name.
pub(crate) fn folder_of<'t>(alloc: Global, name: &'t str) -> Result<Vec<&'t str>, AllocError>
    ensures { IfOk result (λ segments. texts segments.items ≡ resolved [] (folder_of name.now)) }
{
    let all = segments_of(alloc, name)?;
    let mut folder = Vec::new(alloc);
    follow_all(&mut folder, &all[..all.len().saturating_sub(1)])?;
    Ok(folder)
}

// Whether a text begins with `/`.
fn is_rooted(text: &str) -> bool
    ensures { result ≡ is_rooted text.now }
{
    text.as_bytes().first() == Some(&b'/')
}

// Writes segments, each behind a `/`.
fn write_others(text: &mut String, others: &[&str]) -> Result<(), AllocError>
    ensures { OnOk result (string_bytes text.new ≡ string_bytes text.old ++ behind_slashes (texts others.now)) }
{
    for other in others {
        text.push('/')?;
        text.push_str(other)?;
    }
    Ok(())
}

// Writes segments, with `/` between each two.
fn write_joined(text: &mut String, segments: &[&str]) -> Result<(), AllocError>
    ensures { OnOk result (string_bytes text.new ≡ string_bytes text.old ++ joined (texts segments.now)) }
{
    let [first, others @ ..] = segments else {
        return Ok(());
    };
    text.push_str(first)?;
    write_others(text, others)
}

// Writes the `/` that a name begins with, if it does.
fn write_root(text: &mut String, name: &str) -> Result<(), AllocError>
    ensures { OnOk result (string_bytes text.new ≡ string_bytes text.old ++ root_of name.now) }
{
    if is_rooted(name) {
        text.push('/')?;
    }
    Ok(())
}

/// Writes the name that a location means in the document of a name, from the segments of its folder.
pub(crate) fn write_name<'t>(
    text: &mut String,
    segments: &mut Vec<&'t str>,
    name: &str,
    folder: &[&'t str],
    location: &'t str,
) -> Result<(), AllocError>
    requires { texts folder.now ≡ resolved [] (folder_of name.now) }
    ensures { OnOk result (string_bytes text.new ≡ name_from name.now location.now) }
{
    text.clear();
    segments.clear();
    if is_rooted(location) {
        follow_text(segments, location)?;
        return write_joined(text, segments);
    }
    write_root(text, name)?;
    segments.extend_from_slice(folder)?;
    follow_text(segments, location)?;
    write_joined(text, segments)
}
