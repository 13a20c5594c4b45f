//! The results that a leaper remembers: a bounded number of pages and of single ones.

ghost use Rattle.std.specs.Prelude.{◌≡◌, ◌⊎◌, ◌<◌, ◌^◌, ℕ, length, IfSome, IfOk, OnOk, Some, Option, slice_get};
ghost use Rattle.std.specs.NonZero.{non_zero_usize_get};
ghost use Rattle.ca_memo.specs.Pages.{HasPageKey, HasFullLeap, HasSingle, RemembersNoMore, IsBoundedMemo, IsBlankMemo};
ghost use Rattle.ca_memo.specs.declared.page.Page.{Page};
ghost use Rattle.ca_memo.specs.declared.key.Key.TheVariants.{Page as OfPage, Single};

use crate::key::Key;
use crate::page::{Page, SQUARES};
use ca_plane::Memory;
use ca_quad::Id;
use lru::LruCache;
use std::alloc::Global;
use std::marker::Model;
use std::num::NonZeroUsize;

// How many pages may be spared at one put, since they were used.
const SPARED: u32 = 64;

/// The centres of squares after 2^j generations. Those at full leap, which are asked for most, are found
/// without a search, in the slots of their squares' numbers: 64 neighbouring slots are a page. The cache
/// holds the keys of all pages that stand, and the other results, and so bounds both; the least recently used
/// one goes. A forgotten result costs only time.
#[derive(Drop)]
pub struct Memo {
    pages: Vec<Option<Page>>,
    order: LruCache<Key, Option<Id>>,
    // How many results at full leap were looked up.
    looked_up: usize,
}

impl Model for Memo {
    ghost use Rattle.ca_memo.specs.Pages.{MemoView, IsBoundedMemo};

    ghost Value = { MemoView };

    ghost view = { λ m. record { pages = m.pages.items; order = m.order } };

    ghost invariant = { λ m. IsBoundedMemo m.pages.items m.order };
}

impl Memo {
    /// Nothing yet: at most `most` pages and single results.
    pub fn new(alloc: Global, most: NonZeroUsize) -> Result<Memo, Memory>
        ensures blank { IfOk result IsBlankMemo }
        ensures most { IfOk result (λ m. m.order.cap ≡ non_zero_usize_get most) }
    {
        let order = LruCache::sparse(alloc, most)?;
        Ok(Memo {
            pages: Vec::new(alloc),
            order,
            looked_up: 0,
        })
    }

    /// Whether no result at full leap was remembered yet.
    pub fn is_empty(&self) -> bool {
        self.pages.is_empty()
    }

    /// How many results at full leap were looked up since all was forgotten, each counted once while its page stands.
    pub fn looked_up(&self) -> usize {
        self.looked_up
    }

    /// Forgets all, so that as much may be remembered as at first.
    pub fn forget(&mut self)
        ensures blank { IsBlankMemo self.new }
        ensures capacity { self.new.order.cap ≡ self.old.order.cap }
    {
        let alloc = *self.pages.allocator();
        self.pages = Vec::new(alloc);
        self.order.clear();
        self.looked_up = 0;
    }

    /// What is remembered for a square at full leap.
    pub fn full_leap(&mut self, id: Id) -> Option<Id>
        ensures found { IfSome result (HasFullLeap self.old id) }
        ensures no_more { RemembersNoMore self.old self.new }
        ensures bounded { IsBoundedMemo self.new.pages self.new.order }
    {
        let place = id.number();
        let number = place / SQUARES;
        if number >= self.pages.len() {
            return None;
        }
        let page = self.pages[number].as_mut()?;
        let (result_id, first) = page.look_up(place % SQUARES)?;
        self.looked_up = self.looked_up.saturating_add(usize::from(first));
        Some(result_id)
    }

    /// What is remembered for a square at full leap, if it was looked up since its page stands.
    pub fn leap_in_use(&self, id: Id) -> Option<Id>
        ensures { IfSome result (HasFullLeap self.now id) }
    {
        let place = id.number();
        let number = place / SQUARES;
        if number >= self.pages.len() {
            return None;
        }
        let page = self.pages[number].as_ref()?;
        if (page.looked_up >> (place % SQUARES)) & 1 == 0 {
            return None;
        }
        page.slots[place % SQUARES]
    }

    /// What is remembered for a square and another time.
    pub fn single(&self, id: Id, j: u8) -> Option<Id>
        ensures { IfSome result (HasSingle self.now id j) }
    {
        *self.order.peek(&Key::Single(id, j))?
    }

    /// Remembers a result at full leap.
    pub fn put_full_leap(&mut self, id: Id, result_id: Id) -> Result<(), Memory>
        ensures full_leaps { (other centre : ℕ) → HasFullLeap self.new other centre
            → HasFullLeap self.old other centre ⊎ ((other ≡ id) × (centre ≡ result_id)) }
        ensures singles { (other j centre : ℕ) → HasSingle self.new other j centre
            → HasSingle self.old other j centre }
        ensures capacity { self.new.order.cap ≡ self.old.order.cap }
        ensures bounded { IsBoundedMemo self.new.pages self.new.order }
    {
        self.ensure_page(id)?;
        self.write(id, result_id);
        Ok(())
    }

    /// Remembers another result.
    pub fn put_single(&mut self, id: Id, j: u8, result_id: Id) -> Result<(), Memory>
        ensures full_leaps { (other centre : ℕ) → HasFullLeap self.new other centre
            → HasFullLeap self.old other centre }
        ensures singles { (other time centre : ℕ) → HasSingle self.new other time centre
            → HasSingle self.old other time centre ⊎ ((other ≡ id) × (time ≡ j) × (centre ≡ result_id)) }
        ensures capacity { self.new.order.cap ≡ self.old.order.cap }
        ensures bounded { IsBoundedMemo self.new.pages self.new.order }
    {
        self.admit(Key::Single(id, j), Some(result_id))
    }

    // Sees that the page of a square stands.
    fn ensure_page(&mut self, id: Id) -> Result<(), Memory>
        ensures no_more { RemembersNoMore self.old self.new }
        ensures bounded { IsBoundedMemo self.new.pages self.new.order }
    {
        let number = id.number() / SQUARES;
        self.make_room(number)?;
        if self.pages[number].is_none() {
            self.admit(Key::Page(number as u32), None)?;
            self.pages[number] = Some(Page::empty());
        }
        Ok(())
    }

    // Writes a result into the page of a square, where it stands.
    fn write(&mut self, id: Id, result_id: Id)
        ensures full_leaps { (other centre : ℕ) → HasFullLeap self.new other centre
            → HasFullLeap self.old other centre ⊎ ((other ≡ id) × (centre ≡ result_id)) }
        ensures order { self.new.order ≡ self.old.order }
        ensures bounded { IsBoundedMemo self.new.pages self.new.order }
    {
        let place = id.number();
        let number = place / SQUARES;
        if number >= self.pages.len() {
            return;
        }
        let Some(page) = self.pages[number].as_mut() else {
            return;
        };
        page.slots[place % SQUARES] = Some(result_id);
    }

    // Makes as many places for pages that this is one of them.
    fn make_room(&mut self, page: usize) -> Result<(), Memory>
        requires { page < 2 ^ 32 }
        ensures room { OnOk result (page < length self.new.pages) }
        ensures no_more { RemembersNoMore self.old self.new }
        ensures bounded { IsBoundedMemo self.new.pages self.new.order }
    {
        if page < self.pages.len() {
            return Ok(());
        }
        self.pages.resize(page + page / 2 + 1, None)?;
        Ok(())
    }

    // Makes a key the most recently used one.
    fn promote(&mut self, key: Key)
        ensures no_more { RemembersNoMore self.old self.new }
        ensures room { length self.new.pages ≡ length self.old.pages }
    {
        self.order.promote(&key);
        // No more than before.
        let _keys = self.order.len();
    }

    // Whether a page was used since it was last spared: now it wasn't.
    fn take_use(&mut self, page: u32) -> bool
        ensures no_more { RemembersNoMore self.old self.new }
        ensures order { self.new.order ≡ self.old.order }
        ensures room { length self.new.pages ≡ length self.old.pages }
    {
        let index = page as usize;
        if index >= self.pages.len() {
            return false;
        }
        let Some(page) = self.pages[index].as_mut() else {
            return false;
        };
        page.take_use()
    }

    // Puts a key that is to be the most recently used one. Where there are as many as may be, another goes.
    fn admit(&mut self, key: Key, result_id: Option<Id>) -> Result<(), Memory>
        ensures full_leaps { (other centre : ℕ) → HasFullLeap self.new other centre
            → HasFullLeap self.old other centre }
        ensures singles { (other j centre : ℕ) → HasSingle self.new other j centre
            → HasSingle self.old other j centre ⊎ ((key ≡ Single other j) × (result_id ≡ Some centre)) }
        ensures there { OnOk result ((page : ℕ) → key ≡ OfPage page
            → HasPageKey self.new.order.entries page) }
        ensures capacity { self.new.order.cap ≡ self.old.order.cap }
        ensures room { length self.new.pages ≡ length self.old.pages }
        ensures bounded { IsBoundedMemo self.new.pages self.new.order }
    {
        self.spare_used();
        let gone = self.order.push(key, result_id)?;
        let _keys = self.order.len();
        drop_page(&mut self.pages, gone);
        Ok(())
    }

    // Before one goes: makes pages that were used since they were last spared the most recently used ones.
    fn spare_used(&mut self)
        ensures no_more { RemembersNoMore self.old self.new }
        ensures room { length self.new.pages ≡ length self.old.pages }
    {
        if self.order.len() < self.order.cap().get() {
            return;
        }
        'pages: for _ in 0..SPARED {
            let Some((&Key::Page(page), _)) = self.order.peek_lru() else {
                return;
            };
            if !self.take_use(page) {
                return;
            }
            self.promote(Key::Page(page));
        }
    }
}

// Where a page goes from the order, its results go.
fn drop_page(pages: &mut Vec<Option<Page>>, gone: Option<(Key, Option<Id>)>)
    ensures room { length pages.new.items ≡ length pages.old.items }
    ensures rest { (n : ℕ) (page : Page) → slice_get pages.new.items n ≡ Some (Some page)
        → (slice_get pages.old.items n ≡ Some (Some page))
        × ((v : Option ℕ) → gone ≡ Some (OfPage n, v) → ⊥) }
{
    let Some((Key::Page(number), _)) = gone else {
        return;
    };
    let number = number as usize;
    if number < pages.len() {
        pages[number] = None;
    }
}
