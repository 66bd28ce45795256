//! What a publisher begins with. It shows once more what it shows, which makes room: after the step
//! of a publish nothing is allocated. This rests on how the kit's queue grows; no clause says it,
//! nor when B3 comes.
ghost use Rattle.std.specs.Prelude.{◌≡◌, ◌≤◌, [], replicate, IfOk, IfErr};
ghost use Rattle.std.specs.Arc.{arc_value};
ghost use Rattle.left_right.specs.Sides.{view};
ghost use Rattle.druid_inventory_views.specs.Places.{known, IsAlike};
ghost use Rattle.druid_inventory_views.specs.declared.fault.PublishFault.{PublishFault};

use crate::book::Opened;
use crate::fault::PublishFault;
use crate::publication::Publication;
use crate::publisher::{Publisher, WriterPlace};
use crate::receipt::Receipt;
use crate::rule::{Looks, Notes};
use crate::shown::Shown;
use crate::view::{ReaderPlace, View};
use druid_inventory::Inventory;
use left_right::writer::Writer;
use std::alloc::{AllocError, Global};
use std::sync::{Arc, Wait};

/// The most views of one publisher.
pub const MAX_PLACES: u16 = 80;

// A publisher's place with nothing published, for so many views, and what it shows once more.
fn writer_of<J: Publication>(
    alloc: Global,
    nothing: &Receipt<J>,
    inventory: &Arc<Inventory, Global>,
    places: u16,
) -> Result<(WriterPlace, Shown), AllocError>
    requires nothing { nothing.now ≡ [] }
    requires some { 1 ≤ places }
    ensures alike { IfOk result (λ r. IsAlike r.1 r.0.desk.shown.value) }
    ensures book { IfOk result (λ r. r.1.seen.book ≡ J.book) }
    ensures log { IfOk result (λ r. r.1.seen.log ≡ []) }
    ensures inventory { IfOk result (λ r. arc_value r.1.inventory ≡ arc_value inventory.now) }
{
    let shown = nothing.show_with(Arc::try_clone(inventory)?);
    let first = shown.again()?;
    let second = shown.again()?;
    let writer = Writer::new(alloc, first, second, places as usize)?;
    Ok((writer, shown))
}

// A publisher's place, which then knows its list. It shows once more what it shows, so that there is room for what it will show: after
// the step of a publish nothing is allocated.
fn know<J: Publication, R: Wait>(
    rt: &R,
    writer: WriterPlace,
    shown: Shown,
) -> (WriterPlace, Result<(), AllocError>)
    requires alike { IsAlike shown writer.desk.shown.value }
    requires book { shown.seen.book ≡ J.book }
    requires log { shown.seen.log ≡ [] }
    requires inventory { arc_value shown.inventory ≡ J.opening }
    ensures place { IfOk result.1 (λ _. view result.0.desk.place ≡ known J.book J.opening) }
    ensures shown { IfOk result.1 (λ _. result.0.desk.shown.value.seen.log ≡ []) }
{
    let mut writer = writer;
    match writer.append(shown) {
        Ok(()) => writer.publish_as::<Looks, R>(rt),
        Err(_) => (writer, Err(AllocError)),
    }
}

// A view's place, which knows what the publisher's knows.
fn place_of(writer: &mut WriterPlace) -> Result<ReaderPlace, AllocError>
    ensures place { IfOk result (λ place. view place.place ≡ view writer.old.desk.place) }
    ensures same { view writer.new.desk.place ≡ view writer.old.desk.place }
    ensures shown { writer.new.desk.shown ≡ writer.old.desk.shown }
{
    let mut place = writer.factory().reader()?;
    place.learn::<Notes>(writer.tell::<Notes>());
    Ok(place)
}

fn views_of<J: Publication>(
    alloc: Global,
    writer: &mut WriterPlace,
    seen: &Receipt<J>,
    places: u16,
) -> Result<Vec<View<J>>, AllocError>
    requires place { view writer.old.desk.place ≡ known J.book J.opening }
    requires shown { writer.old.desk.shown.value.seen.log ≡ [] }
    ensures place { view writer.new.desk.place ≡ known J.book J.opening }
    ensures shown { writer.new.desk.shown.value.seen.log ≡ [] }
    ensures views { IfOk result (λ views. views.items ≡ replicate places seen.now) }
{
    let mut views = Vec::new(alloc);
    for _place in 0..places {
        let place = place_of(writer)?;
        views.push(View::new(place, seen.again()))?;
    }
    Ok(views)
}

/// A publisher of an inventory, with nothing published, and so many views of it, which have seen
/// nothing.
///
/// # Errors
///
/// B9.
pub fn open<J: Publication, R: Wait + Drop>(
    alloc: Global,
    rt: R,
    opened: Opened,
    inventory: Inventory,
    places: u16,
) -> Result<(Publisher<J, R>, Vec<View<J>>), PublishFault>
    requires book { opened ≡ J.book }
    requires opening { inventory ≡ J.opening }
    requires some { 1 ≤ places }
    requires few { places ≤ 80 }
    ensures published { IfOk result (λ r. r.0.published ≡ []) }
    ensures inventory { IfOk result (λ r. r.0.inventory ≡ J.opening) }
    ensures shown { IfOk result (λ r. r.0.shown ≡ []) }
    ensures views { IfOk result (λ r. r.1.items ≡ replicate places []) }
    ensures fault { IfErr result (λ fault. fault ≡ PublishFault.Memory) }
{
    let (head, seen) = opened.with_name::<J>();
    let Ok(inventory) = Arc::new(alloc, inventory) else {
        return Err(PublishFault::Memory);
    };
    let (writer, shown) = writer_of(alloc, &seen, &inventory, places)?;
    let (mut writer, known) = know::<J, R>(&rt, writer, shown);
    if known.is_err() {
        drop(writer.take(&rt));
        return Err(PublishFault::Memory);
    }
    let views = views_of(alloc, &mut writer, &seen, places);
    let publisher = Publisher::new(alloc, rt, (head, seen), inventory, writer);
    Ok((publisher, views?))
}
