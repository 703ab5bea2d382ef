// Loading an image that nothing but 24 can refuse: the state that it gives, in every word and byte of the fixed lengths.
#![tactic(auto)]

ghost use Rattle.std.specs.Prelude.{◌≡◌, true, ◌≤◌, length};
ghost use Rattle.model.specs.Loops.{each_below};
ghost use Rattle.model.specs.Memory.{state_length};
ghost use Rattle.model.specs.Join.{with_settings};
ghost use Rattle.model.specs.Image.{has_joins, im_version, im_nodes, im_records, joins_listed, load_id, loaded_ids, load_record, loaded, loaded_state};
ghost use Rattle.state.specs.Lent.{memory};
ghost use Rattle.image_loading.specs.Loads.{Loads, Fills};

use image_fields::header;
use image_fields::header::Header;
use image_fields::image::Image;
use state::clear::clear;
use state::lent::{STATE_LENGTH, TABLES_LENGTH};
use state::settings;
use state::settings::Settings;
use tables::part;

fn load_settings(state: &mut [u64], h: Header)
    requires { state_length ≤ length state.old }
    ensures { state.new ≡ with_settings state.old h.base h.digits h.depth h.nodes }
{
    settings::store(
        state,
        Settings {
            base: h.base,
            digits: h.digits,
            depth: h.depth,
            nodes: h.nodes,
        },
    );
}

fn load_ids(state: &mut [u64], image: &Image<'_>)
    requires state_long { state_length ≤ length state.old }
    ensures { state.new ≡ each_below (im_nodes image.now.bytes.now) (load_id image.now.bytes.now) state.old }
{
    for k in 0..image.header.nodes {
        state[8 * (k + 1)] = image.id(k + 1) as u64;
    }
}

fn load_records(tables: &mut [u8], image: &Image<'_>)
    requires fills { Fills tables.old image.now.bytes.now }
    ensures { tables.new ≡ each_below (im_records image.now.bytes.now) (load_record image.now.bytes.now) tables.old }
{
    for r in 0..image.header.records {
        let e = image.record(r);
        part::append(
            tables,
            image.header.depth,
            e.node,
            e.level,
            e.digit,
            e.neighbor,
        );
    }
}

// The settings and the ids, on cleared words.
fn load_nodes(state: &mut [u64], image: &Image<'_>)
    requires state_long { state_length ≤ length state.old }
    ensures { state.new ≡ loaded_ids state.old image.now.bytes.now }
{
    clear(state, STATE_LENGTH);
    load_settings(state, image.header);
    load_ids(state, image);
}

// Every word: of version 2 the joins and counts too.
fn load_words(state: &mut [u64], image: &Image<'_>)
    requires state_long { state_length ≤ length state.old }
    requires listed { has_joins (im_version image.now.bytes.now) ≡ true → joins_listed image.now.bytes.now ≡ true }
    ensures { state.new ≡ loaded_state state.old image.now.bytes.now }
{
    load_nodes(state, image);
    if header::has_joins(image.bytes) {
        image_joins::load(state, image);
    }
}

pub fn load(state: &mut [u64], tables: &mut [u8], image: &Image<'_>)
    requires { Loads state.old tables.old image.now.bytes.now }
    ensures { memory state.new tables.new ≡ loaded state.old tables.old image.now.bytes.now }
{
    load_words(state, image);
    clear(tables, TABLES_LENGTH);
    load_records(tables, image);
}
