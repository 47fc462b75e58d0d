//! Whether the `If` of a request holds (RFC 4918 section 10.4).
#![tactic(auto, using(dav_safe_methods_core::proofs::Acting::requests))]

ghost use Rattle.std.specs.Prelude.{◌≡◌, IfOk, IfErr, OnOk, map};
ghost use Rattle.dav_path_core.specs.Segments.{segments};
ghost use Rattle.dav_headers_core.specs.IfValues.{condition_of, conditions_of, item_of, located_list};
ghost use Rattle.dav_methods_core.specs.Admitting.{IsAdmitted, IsHeldOff};
ghost use Rattle.dav_session_core.specs.Conditions.{IfIs, condition_holds, conditions_hold};
ghost use Rattle.dav_session_core.specs.Conditions.{has_item};
ghost use Rattle.dav_fields_core.specs.FileTags.{standing_at};
ghost use Rattle.dav_fields_core.specs.Preconditions.{has_tag};
ghost use Rattle.dav_session_core.specs.Sessions.{Looks, live_of, state};
ghost use Rattle.dav_fields_core.specs.TaggedLists.{base_of, spoken_path};
ghost use Rattle.dav_fields_core.specs.declared.listed_tags.Comparison.TheVariants.{Strong};
ghost use Rattle.dav_faults_core.specs.declared.faults.Fault.TheVariants as fault;

mod laws;

use dav_faults_core::faults::Fault;
use dav_fields_core::bases::base_of;
pub use dav_fields_core::bases::{Scheme, Site};
use dav_fields_core::listed_tags::Comparison;
use dav_fields_core::preconditions::has_tag;
use dav_fields_core::senders::if_of;
pub use dav_fields_core::state_tokens::tokens;
use dav_fields_core::tagged::spoken_of;
use dav_guarded_core::davheaders::{ETag, If, IfCondition, IfItem, IfList};
use dav_guarded_core::davpath::DavPath;
use dav_session_core::session::{Session, copy_of, has_token};
use http_header::{HeaderMap, HeaderValue};
pub use laws::{
    held_token_shows_a_lock, not_of_no_lock_holds, one_truth, tagged_lists_are_of_their_tags,
    tokens_stand_once, untagged_lists_are_of_the_request,
};
use rand_core::Rng;
use std::alloc::Global;
use std::convert::AsStr;
use url::Url;

// Whether a file with the tag stands at the path.
fn has_file_tag<R: Rng>(
    alloc: Global,
    session: &mut Session<R>,
    path: &DavPath,
    tag: &ETag,
) -> Result<bool, Fault>
    ensures ok { IfOk result (λ has. has
        ≡ has_tag Strong (standing_at (state R.stream session.old).map
        (segments path.now.bytes)) tag.now) }
    ensures err { IfErr result (λ e. e ≡ fault.InsufficientStorage) }
    ensures looks { Looks R.stream session.old session.new }
{
    let standing = session.standing(alloc, path)?;
    Ok(has_tag(Comparison::Strong, &standing, tag.as_str().as_bytes()))
}

// Whether what a list speaks of has the item.
fn has_item<R: Rng>(
    alloc: Global,
    session: &mut Session<R>,
    at: &Option<DavPath>,
    item: &IfItem,
) -> Result<bool, Fault>
    ensures ok { IfOk result (λ has. has ≡ has_item (live_of R.stream session.old)
        (spoken_path at.now) (item_of item.now)) }
    ensures err { IfErr result (λ e. e ≡ fault.InsufficientStorage) }
    ensures looks { Looks R.stream session.old session.new }
{
    match at {
        None => return Ok(false),
        Some(path) => match item {
            IfItem::StateToken(token) => return has_token(session, path, token),
            IfItem::ETag(tag) => return has_file_tag(alloc, session, path, tag),
        },
    }
}

// Whether a condition holds.
fn condition_holds<R: Rng>(
    alloc: Global,
    session: &mut Session<R>,
    at: &Option<DavPath>,
    condition: &IfCondition,
) -> Result<bool, Fault>
    ensures ok { IfOk result (λ holds. holds ≡ condition_holds (live_of R.stream session.old)
        (spoken_path at.now) (condition_of condition.now)) }
    ensures err { IfErr result (λ e. e ≡ fault.InsufficientStorage) }
    ensures looks { Looks R.stream session.old session.new }
{
    let has = has_item(alloc, session, at, &condition.item)?;
    Ok(if condition.not { !has } else { has })
}

// Whether all conditions of a list hold.
fn conditions_hold<R: Rng>(
    alloc: Global,
    session: &mut Session<R>,
    at: &Option<DavPath>,
    conditions: &[IfCondition],
) -> Result<bool, Fault>
    ensures ok { IfOk result (λ hold. hold ≡ conditions_hold (live_of R.stream session.old)
        (spoken_path at.now) (conditions_of conditions.now)) }
    ensures err { IfErr result (λ e. e ≡ fault.InsufficientStorage) }
    ensures looks { Looks R.stream session.old session.new }
{
    for condition in conditions {
        if !condition_holds(alloc, session, at, condition)? {
            return Ok(false);
        }
    }
    Ok(true)
}

// Whether one of the lists holds.
fn one_holds<R: Rng>(
    alloc: Global,
    session: &mut Session<R>,
    lists: &[IfList],
    here: &DavPath,
    base: &Url,
) -> Result<bool, Fault>
    ensures ok { IfOk result (IfIs (live_of R.stream session.old) (base_of base.now here.now)
        (segments here.now.bytes) (map located_list lists.now)) }
    ensures err { IfErr result (λ e. e ≡ fault.InsufficientStorage) }
    ensures looks { Looks R.stream session.old session.new }
{
    let mut at = Some(copy_of(here)?);
    for list in lists {
        at = spoken_of(alloc, &list.resource_tag, at, base, here)?;
        if conditions_hold(alloc, session, &at, &list.conditions)? {
            return Ok(true);
        }
    }
    Ok(false)
}

/// Whether an `If` holds for a request for the path `here`: whether all conditions of one of its
/// lists do (RFC 4918 sections 10.4.3 and 10.4.4). A state token holds where a lock with it covers
/// the resource and has not expired, whoever asks; an entity tag where the resource is a file with
/// an equal one, by strong comparison. A resource tag is for all lists up to the next one. It names
/// a path where it has the scheme, the host and the port of `base`, and stands behind the prefix of
/// `here`; else it stands for a resource that has neither locks nor tags.
///
/// `InsufficientStorage` where there is no memory for it, and never else. Nothing changes, but
/// locks that have expired may be gone.
pub fn evaluate<R: Rng>(
    alloc: Global,
    session: &mut Session<R>,
    header: &If,
    here: &DavPath,
    base: &Url,
) -> Result<bool, Fault>
    ensures ok { IfOk result (IfIs (live_of R.stream session.old) (base_of base.now here.now)
        (segments here.now.bytes) (map located_list header.now.0.items)) }
    ensures err { IfErr result (λ e. e ≡ fault.InsufficientStorage) }
    ensures looks { Looks R.stream session.old session.new }
{
    let If(lists) = header;
    one_holds(alloc, session, lists, here, base)
}

/// Lets a request for the path `here` go on where it has no `If`, or its `If` holds, as `evaluate`
/// says. Its resource tags are compared with the host of the site, or else that of its `Host`.
///
/// `BadRequest` where the `If` can't be read, or no host is named that is one;
/// `PreconditionFailed` where the `If` doesn't hold (RFC 4918 section 10.4); `InsufficientStorage`
/// where there is no memory for it. Nothing changes, but locks that have expired may be gone.
pub fn admit<R: Rng>(
    alloc: Global,
    session: &mut Session<R>,
    site: &Site<'_>,
    headers: &HeaderMap<HeaderValue>,
    here: &DavPath,
) -> Result<(), Fault>
    ensures ok { OnOk result
        (IsAdmitted site.now (live_of R.stream session.old) headers.now here.now) }
    ensures err { IfErr result
        (IsHeldOff site.now (live_of R.stream session.old) headers.now here.now) }
    ensures looks { Looks R.stream session.old session.new }
{
    let Some(header) = if_of(alloc, site, headers)? else {
        return Ok(());
    };
    let base = base_of(alloc, site, headers)?;
    if !evaluate(alloc, session, &header, here, &base)? {
        return Err(Fault::PreconditionFailed);
    }
    Ok(())
}
