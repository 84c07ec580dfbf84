// The frame of the picture: what comes before it and after it.
ghost use Rattle.std.specs.Prelude.{◌≡◌, ◌+◌, ◌++◌, ◌<◌, ◌≤◌, OnOk};
ghost use Rattle.std.specs.List.{flat_map};
ghost use Rattle.trace_page.specs.Measures.{end_width, most_down, most_right, most_tenths};
ghost use Rattle.trace_page.specs.Frame.{around, beyond, colours, end_text, event_words, head, head_key, head_style, height_of, hop_front, hop_text, height_open, key_marks, key_waits, layout, marks, more_closed, more_open, more_text, name_text, name_words, names_closed, names_open, names_text, number_text, numbers_closed, numbers_open, numbers_text, opening, page_closed, paper_open, patterns, procedure_of, procedure_words, script, sheet_closed, sheet_open, sheet_text, sheet_turned, signs, size_closed, size_open, size_text, strip_closed, strip_open, strip_text, stuck_between, stuck_closed, stuck_open, stuck_text, tail, tenth, tenths, wait_front, wait_line, waits, ways, width_of};
ghost use Rattle.trace_page.specs.Waits.{each_from};

use crate::measures::{END_WIDTH, FOOT, MOST_TENTHS, NAMES_WIDTH};
use crate::scene::{Hop, Lane, Moment, Naming, Scene};
use crate::shapes::{add_counted, add_escaped, add_group_closed, add_group_open, add_label};
use crate::steps::is_due;
use lwp_types::NoMemory;
use trace_lines::NOBODY;
use trace_text::{add_number, add_text};

#[tactic(auto, unfolding(crate::specs::Frame::opening))]
fn opening() -> &'static [u8]
    ensures { result.now ≡ opening }
{
    b"<!DOCTYPE html>\n<html lang='en'>\n<head>\n<meta charset='utf-8'>\n<meta name='viewport' content='width=device-width'>\n<title>A run of lightweight processes</title>\n<style>\n"
}

#[tactic(auto, unfolding(crate::specs::Frame::colours))]
fn colours() -> &'static [u8]
    ensures { result.now ≡ colours }
{
    b":root{color-scheme:light dark;--paper:#fff;--ink:#1c1c1c;--soft:#667;--line:#b9bec8;--reply:#c2541b;--letter:#1f6fb4;--monitor:#b3261e;--condition:#7a3fa0;--death:#5a5a5a;--clock:#00767c;--suspended:#a07800;--caught:#7a3fa0;--held:#cfe6d2;--edge:#3c7a46;--under:darken}\n@media(prefers-color-scheme:dark){:root{--paper:#15171a;--ink:#e8e8e8;--soft:#a4abb8;--line:#4a505c;--reply:#ff9a5c;--letter:#6db8ff;--monitor:#ff7d74;--condition:#cf9bf2;--death:#b9b9b9;--clock:#5fd3d8;--suspended:#f0c64a;--caught:#cf9bf2;--held:#24442a;--edge:#7fc98b;--under:lighten}}\n"
}

#[tactic(auto, unfolding(crate::specs::Frame::layout))]
fn layout() -> &'static [u8]
    ensures { result.now ≡ layout }
{
    b"body{margin:0;padding:8px;min-width:max-content;display:flex;flex-direction:column;background:var(--paper);color:var(--ink);font:13px sans-serif}\n.more{order:-1;margin:4px 0;position:sticky;left:8px;width:max-content}\n.stuck{order:-3;position:sticky;left:8px;width:calc(100vw - 32px);max-height:30vh;overflow:auto}\n.stuck p{margin:4px 0}\n.stuck p:empty,.stuck br:first-child{display:none}\n.cycle{color:var(--monitor);font-weight:bold}\n.key{height:124px;width:900px;flex:none;position:sticky;left:8px}\n.scale{order:-2;position:sticky;left:8px;width:max-content}\n.scale a{color:inherit;margin-left:12px}\n.strip{order:-1;position:sticky;top:0;left:8px;z-index:3;flex:none;width:calc(100vw - 16px);height:44px;background:var(--paper);border:1px solid var(--line);box-sizing:border-box;cursor:pointer}\n.seen{fill:var(--suspended);opacity:.25}\n.page{display:grid;grid-template-columns:150px auto;min-width:max-content}\n.run{grid-area:2/2}\n.numbers{grid-area:1/2;position:sticky;top:44px;z-index:1;height:16px;background:var(--paper)}\n.names{grid-area:2/1;position:sticky;left:0;z-index:2;width:150px;background:var(--paper);border-right:1px solid var(--line)}\n.sheet{display:none}\nsvg{display:block;fill:var(--ink)}\n@page{margin:8mm}\n@media print{:root{color-scheme:light}.scale,.strip,.page{display:none}.sheet{display:block;max-width:100%}.key{height:auto;width:100%}.names,.numbers{position:static}}\n"
}

#[tactic(auto, unfolding(crate::specs::Frame::marks))]
fn marks() -> &'static [u8]
    ensures { result.now ≡ marks }
{
    b"text{font:12px sans-serif}\n.name{font-weight:bold}\n.said{font-size:9px;font-style:italic}\n.number,.event{font-size:10px;fill:var(--soft);text-anchor:middle}\n.clock{font-size:10px;fill:var(--clock);text-anchor:middle}\n.tag{font-size:11px;fill:var(--ink)}\n.end{font-weight:bold}\n.due,.idle{font-weight:bold}\n.due{fill:var(--monitor)}\n.idle{fill:var(--ink)}\n.life,#rule{fill:var(--line);mix-blend-mode:var(--under);pointer-events:none}\n#rule{opacity:.5}\n#clock,#spot{fill:var(--clock)}\n#refused{fill:var(--monitor)}\n#caught path{fill:none;stroke:var(--caught);stroke-width:1.6}\n#clock rect{opacity:.5;pointer-events:none}\n.held{fill:var(--held);stroke:var(--edge);stroke-width:.8}\n.reply,.letter,.monitor,.condition,.death,.sleep,.suspended{stroke-width:1}\n"
}

#[tactic(auto, unfolding(crate::specs::Frame::waits))]
fn waits() -> &'static [u8]
    ensures { result.now ≡ waits }
{
    b".reply{fill:url(#p-reply);stroke:var(--reply)}\n.letter{fill:url(#p-letter);stroke:var(--letter)}\n.monitor{fill:url(#p-monitor);stroke:var(--monitor)}\n.condition{fill:url(#p-condition);stroke:var(--condition)}\n.death{fill:url(#p-death);stroke:var(--death)}\n.sleep{fill:url(#p-sleep);stroke:var(--clock)}\n.suspended{fill:url(#p-suspended);stroke:var(--suspended)}\n#p-reply path{stroke:var(--reply);stroke-width:1.4;fill:none}\n#p-letter path{stroke:var(--letter);stroke-width:1.4;fill:none}\n#p-monitor path{stroke:var(--monitor);stroke-width:1.4;fill:none}\n#p-condition path{stroke:var(--condition);stroke-width:1.4;fill:none}\n#p-death path{stroke:var(--death);stroke-width:1.4;fill:none}\n#p-sleep path{stroke:var(--clock);stroke-width:1.4;fill:none}\n#p-suspended path{stroke:var(--suspended);stroke-width:1.4;fill:none}\n@media print{.reply{fill:none;stroke-dasharray:5 2}.letter{fill:none}.monitor{fill:none;stroke-width:2}.condition{fill:none;stroke-dasharray:1.5 2}.death{fill:var(--line)}.sleep{fill:none;stroke-dasharray:8 2 1.5 2}.suspended{fill:none}}\n"
}

#[tactic(auto, unfolding(crate::specs::Frame::ways))]
fn ways() -> &'static [u8]
    ensures { result.now ≡ ways }
{
    b"path.sent,path.replied,path.woken,path.event,path.blocked,path.deadlock{fill:none;stroke-width:1.3}\npath.sent{stroke:var(--letter);marker-end:url(#a-sent)}\npath.replied{stroke:var(--reply);stroke-dasharray:5 2;marker-end:url(#a-replied)}\npath.woken{stroke:var(--soft);stroke-dasharray:1.5 2;marker-end:url(#a-woken)}\npath.event{stroke:var(--soft);opacity:.5}\npath.blocked{stroke:var(--soft);marker-end:url(#a-woken)}\npath.deadlock{stroke:var(--monitor);stroke-width:2.4;marker-end:url(#a-deadlock)}\n#a-deadlock path{fill:var(--monitor)}\n#a-sent path{fill:var(--letter)}\n#a-replied path{fill:var(--reply)}\n#a-woken path{fill:var(--soft)}\n.sign{fill:none;stroke:var(--ink);stroke-width:2}\n</style>\n</head>\n<body>\n"
}

#[tactic(auto, unfolding(crate::specs::Frame::patterns))]
fn patterns() -> &'static [u8]
    ensures { result.now ≡ patterns }
{
    b"<svg class='key' viewBox='0 0 900 124'>\n<defs><pattern id='p-reply' width='6' height='6' patternUnits='userSpaceOnUse'><path d='M0 6L6 0'/></pattern><pattern id='p-letter' width='6' height='6' patternUnits='userSpaceOnUse'><path d='M1 3h1.5M4 0h1.5M4 6h1.5'/></pattern><pattern id='p-monitor' width='6' height='6' patternUnits='userSpaceOnUse'><path d='M0 0L6 6M0 6L6 0'/></pattern><pattern id='p-condition' width='6' height='6' patternUnits='userSpaceOnUse'><path d='M1 0V6M4 0V6'/></pattern><pattern id='p-death' width='6' height='6' patternUnits='userSpaceOnUse'><path d='M0 0L6 6'/></pattern><pattern id='p-sleep' width='6' height='6' patternUnits='userSpaceOnUse'><path d='M0 4.5L3 1.5L6 4.5'/></pattern><pattern id='p-suspended' width='6' height='6' patternUnits='userSpaceOnUse'><path d='M0 1.5H6M0 4.5H6'/></pattern>"
}

#[tactic(auto, unfolding(crate::specs::Frame::signs))]
fn signs() -> &'static [u8]
    ensures { result.now ≡ signs }
{
    b"<marker id='a-sent' viewBox='0 0 8 8' refX='7' refY='4' markerWidth='6' markerHeight='6' orient='auto'><path d='M0 0L8 4L0 8z'/></marker><marker id='a-replied' viewBox='0 0 8 8' refX='7' refY='4' markerWidth='6' markerHeight='6' orient='auto'><path d='M0 0L8 4L0 8z'/></marker><marker id='a-woken' viewBox='0 0 8 8' refX='7' refY='4' markerWidth='6' markerHeight='6' orient='auto'><path d='M0 0L8 4L0 8z'/></marker><marker id='a-deadlock' viewBox='0 0 8 8' refX='7' refY='4' markerWidth='10' markerHeight='10' markerUnits='userSpaceOnUse' orient='auto'><path d='M0 0L8 4L0 8z'/></marker><g id='tick'><rect x='-4' y='0' width='8' height='20' fill='transparent'/><rect x='-1' y='2' width='2' height='16'/></g><g id='exit'><path class='sign' d='M0 4L5 10L0 16L-5 10z'/></g><g id='death'><path class='sign' d='M3 5L13 15M3 15L13 5'/></g><g id='answer'><rect x='3' y='0' width='8' height='20' fill='transparent'/><circle cx='7' cy='17' r='1.4'/></g><g id='refused'><rect x='3' y='0' width='8' height='20' fill='transparent'/><path d='M5.6 2h2.8l-.6 10h-1.6z'/><circle cx='7' cy='16' r='1.7'/></g><g id='caught'><rect x='3' y='0' width='8' height='20' fill='transparent'/><path d='M9.5 3V12A3 3 0 0 1 3.5 12V9'/></g><rect id='rule' x='-.5' y='0' width='1'/><circle id='spot' r='3'/><g id='clock'><circle r='3'/><rect x='-.5' y='0' width='1'/></g></defs>\n"
}

#[tactic(auto, unfolding(crate::specs::Frame::key_waits))]
fn key_waits() -> &'static [u8]
    ensures { result.now ≡ key_waits }
{
    b"<rect class='reply' x='8' y='6' width='28' height='12'/><text x='42' y='16'>waits for a reply</text><rect class='letter' x='158' y='6' width='28' height='12'/><text x='192' y='16'>for a letter</text><rect class='monitor' x='288' y='6' width='28' height='12'/><text x='322' y='16'>for a monitor</text><rect class='condition' x='418' y='6' width='28' height='12'/><text x='452' y='16'>on a condition</text><rect class='death' x='558' y='6' width='28' height='12'/><text x='592' y='16'>for a death</text><rect class='suspended' x='678' y='6' width='28' height='6'/><text x='712' y='16'>suspended</text><rect class='held' x='788' y='6' width='28' height='12'/><text class='tag' x='791' y='16'>m0</text><text x='822' y='16'>holds</text>\n"
}

#[tactic(auto, unfolding(crate::specs::Frame::key_marks))]
fn key_marks() -> &'static [u8]
    ensures { result.now ≡ key_marks }
{
    b"<use href='#tick' x='20' y='28'/><text x='34' y='42'>a call</text><use href='#exit' x='110' y='28'/><text x='122' y='42'>an exit procedure</text><use href='#death' x='242' y='28'/><text x='262' y='42'>a death</text><path class='sent' d='M330 38L360 38'/><text x='366' y='42'>a letter</text><path class='replied' d='M430 38L460 38'/><text x='466' y='42'>a reply</text><path class='woken' d='M530 38L560 38'/><text x='566' y='42'>wakes</text><text class='event' x='632' y='42'>0:1</text><text x='648' y='42'>a line: client and number</text><use href='#answer' x='13' y='52'/><text x='34' y='66'>an answer</text><use href='#refused' x='103' y='52'/><text x='122' y='66'>a refusal</text><use href='#caught' x='237' y='52'/><text x='262' y='66'>an exception is caught</text><text class='said' x='430' y='66'>hello</text><text x='466' y='66'>what is said, where there is room</text><text x='8' y='90'>Calls go from left to right, every tenth has its number above. Point at a mark to see its line of the trace.</text><rect class='sleep' x='678' y='56' width='28' height='12'/><text x='712' y='66'>sleeps</text><use href='#spot' x='796' y='62'/><text class='clock' x='808' y='66'>7</text><text x='822' y='66'>a tick</text><path class='woken' d='M20 102L20 118'/><text x='34' y='114'>a trap is raised</text><path class='blocked' d='M158 110L186 110'/><text x='192' y='114'>whom somebody waits for at the end</text><path class='deadlock' d='M430 110L460 110'/><text x='466' y='114'>the same in a deadlock</text></svg>\n<div class='page'>\n<svg class='run'><g id='run'>\n"
}

#[tactic(auto, unfolding(crate::specs::Frame::names_open))]
fn names_open() -> &'static [u8]
    ensures { result.now ≡ names_open }
{
    b"</g></svg>\n<svg class='names'><g id='names'>\n"
}

#[tactic(auto, unfolding(crate::specs::Frame::names_closed))]
fn names_closed() -> &'static [u8]
    ensures { result.now ≡ names_closed }
{
    b"</g></svg>\n"
}

#[tactic(auto, unfolding(crate::specs::Frame::numbers_open))]
fn numbers_open() -> &'static [u8]
    ensures { result.now ≡ numbers_open }
{
    b"<svg class='numbers'><g id='numbers'>\n"
}

#[tactic(auto, unfolding(crate::specs::Frame::numbers_closed))]
fn numbers_closed() -> &'static [u8]
    ensures { result.now ≡ numbers_closed }
{
    b"</g></svg>\n</div>\n"
}

#[tactic(auto, unfolding(crate::specs::Frame::size_open))]
fn size_open() -> &'static [u8]
    ensures { result.now ≡ size_open }
{
    b"<style>.run,.numbers{width:"
}

#[tactic(auto, unfolding(crate::specs::Frame::height_open))]
fn height_open() -> &'static [u8]
    ensures { result.now ≡ height_open }
{
    b"px}.run,.names,#rule,#clock rect{height:"
}

#[tactic(auto, unfolding(crate::specs::Frame::size_closed))]
fn size_closed() -> &'static [u8]
    ensures { result.now ≡ size_closed }
{
    b"px}</style>\n"
}

#[tactic(auto, unfolding(crate::specs::Frame::strip_open))]
fn strip_open() -> &'static [u8]
    ensures { result.now ≡ strip_open }
{
    b"<svg class='strip' preserveAspectRatio='none' viewBox='0 0 "
}

#[tactic(auto, unfolding(crate::specs::Frame::strip_closed))]
fn strip_closed() -> &'static [u8]
    ensures { result.now ≡ strip_closed }
{
    b"'><use href='#run'/><rect class='seen' y='0' height='100%'/></svg>\n"
}

#[tactic(auto, unfolding(crate::specs::Frame::paper_open))]
fn paper_open() -> &'static [u8]
    ensures { result.now ≡ paper_open }
{
    b"px}.sheet{width:"
}

#[tactic(auto, unfolding(crate::specs::Frame::sheet_open))]
fn sheet_open() -> &'static [u8]
    ensures { result.now ≡ sheet_open }
{
    b"<svg class='sheet' viewBox='0 0 "
}

#[tactic(auto, unfolding(crate::specs::Frame::sheet_turned))]
fn sheet_turned() -> &'static [u8]
    ensures { result.now ≡ sheet_turned }
{
    b"'><g transform='rotate(90) translate(0 -"
}

#[tactic(auto, unfolding(crate::specs::Frame::sheet_closed))]
fn sheet_closed() -> &'static [u8]
    ensures { result.now ≡ sheet_closed }
{
    b")'><use href='#names'/><use href='#run' x='150'/><use href='#numbers' x='150'/></g></svg>\n"
}

#[tactic(auto, unfolding(crate::specs::Frame::script))]
fn script() -> &'static [u8]
    ensures { result.now ≡ script }
{
    b"<script>\n(function(){\nvar q=function(s){return document.querySelector(s)},page=q('.page'),run=q('.run'),strip=q('.strip'),seen=q('.seen'),wide=strip.viewBox.baseVal.width;\nvar show=function(){var r=run.getBoundingClientRect(),k=wide/r.width;strip.style.display=Math.max(0,r.width+150-innerWidth)?'':'none';seen.setAttribute('x',Math.max(0,(150-r.left)*k));seen.setAttribute('width',Math.max(0,(innerWidth-150)*k))};\nstrip.onclick=function(e){var r=run.getBoundingClientRect(),s=strip.getBoundingClientRect();scrollBy((e.clientX-s.left)/s.width*r.width+r.left-innerWidth/2,0)};\nvar label=document.createElement('label'),range=document.createElement('input');label.className='scale';label.append('scale ',range);range.type='range';range.min=25;range.max=200;range.value=100;\nrange.oninput=function(){page.style.zoom=range.value/100;show()};\nvar go=function(words,x){var a=document.createElement('a');a.href='#';a.append(words);a.onclick=function(){scrollTo(x(),0);return false};label.append(a)},end=function(){return document.documentElement.scrollWidth};\ngo('to the start',function(){return 0});go('to the end',end);\ndocument.body.append(label);addEventListener('scroll',show);addEventListener('resize',show);\nif(q('.waits:not(:empty)')&&Math.max(0,run.getBoundingClientRect().width+150-innerWidth))scrollTo(end(),0);\nshow()\n})()\n</script>\n"
}

#[tactic(auto, unfolding(crate::specs::Frame::more_open))]
fn more_open() -> &'static [u8]
    ensures { result.now ≡ more_open }
{
    b"<p class='more'>Call "
}

#[tactic(auto, unfolding(crate::specs::Frame::more_closed))]
fn more_closed() -> &'static [u8]
    ensures { result.now ≡ more_closed }
{
    b" is the last that is drawn; the trace goes on. The words --last 5000 draw its end.</p>\n"
}

#[tactic(auto, unfolding(crate::specs::Frame::page_closed))]
fn page_closed() -> &'static [u8]
    ensures { result.now ≡ page_closed }
{
    b"</body>\n</html>\n"
}

#[tactic(auto, unfolding(crate::specs::Frame::head_style))]
fn add_head_style(out: &mut Vec<u8>) -> Result<(), NoMemory>
    ensures { OnOk result (out.new.items ≡ out.old.items ++ head_style) }
{
    add_text(out, opening())?;
    add_text(out, colours())?;
    add_text(out, layout())?;
    add_text(out, marks())?;
    add_text(out, waits())?;
    add_text(out, ways())
}

#[tactic(auto, unfolding(crate::specs::Frame::head_key))]
fn add_head_key(out: &mut Vec<u8>) -> Result<(), NoMemory>
    ensures { OnOk result (out.new.items ≡ out.old.items ++ head_key) }
{
    add_text(out, patterns())?;
    add_text(out, signs())?;
    add_text(out, key_waits())?;
    add_text(out, key_marks())
}

/// All that comes before the picture.
#[tactic(auto, unfolding(crate::specs::Frame::head))]
pub(crate) fn add_head(out: &mut Vec<u8>) -> Result<(), NoMemory>
    ensures { OnOk result (out.new.items ≡ out.old.items ++ head) }
{
    add_head_style(out)?;
    add_head_key(out)
}

#[tactic(auto, unfolding(crate::specs::Frame::event_words, crate::specs::Frame::event_open))]
fn add_event_words(out: &mut Vec<u8>, event: u64) -> Result<(), NoMemory>
    ensures { OnOk result (out.new.items ≡ out.old.items ++ event_words event) }
{
    if event == 0 {
        return Ok(());
    }
    add_counted(out, b", event ", event)
}

#[tactic(auto, unfolding(crate::specs::Frame::procedure_words))]
fn add_procedure_words(out: &mut Vec<u8>, name: &[u8]) -> Result<(), NoMemory>
    ensures { OnOk result (out.new.items ≡ out.old.items ++ procedure_words name.now) }
{
    if name.is_empty() {
        return Ok(());
    }
    add_text(out, b" ")?;
    add_escaped(out, name)
}

fn procedure_of<'t>(id: u64, namings: &[Naming<'t>]) -> &'t [u8]
    ensures { result.now ≡ procedure_of id namings.now }
{
    for naming in namings {
        if naming.tid == id {
            return naming.name.bytes();
        }
    }
    &[]
}

#[tactic(auto, unfolding(crate::specs::Frame::stuck_open))]
fn stuck_open() -> &'static [u8]
    ensures { result.now ≡ stuck_open }
{
    b"<div class='stuck'><p class='cycle'>"
}

#[tactic(auto, unfolding(crate::specs::Frame::stuck_between))]
fn stuck_between() -> &'static [u8]
    ensures { result.now ≡ stuck_between }
{
    b"</p>\n<p class='waits'>"
}

#[tactic(auto, unfolding(crate::specs::Frame::stuck_closed))]
fn stuck_closed() -> &'static [u8]
    ensures { result.now ≡ stuck_closed }
{
    b"</p></div>\n"
}

// Before a step of a cycle: it is the first, or another.
#[tactic(auto, unfolding(crate::specs::Frame::hop_front))]
fn hop_front(begins: bool) -> &'static [u8]
    ensures { result.now ≡ hop_front begins }
{
    if begins { b"<br/>Deadlock: t" } else { b", t" }
}

#[tactic(auto, unfolding(crate::specs::Frame::hop_text))]
fn add_hop(out: &mut Vec<u8>, hop: Hop) -> Result<(), NoMemory>
    ensures { OnOk result (out.new.items ≡ out.old.items ++ hop_text hop) }
{
    add_counted(out, hop_front(hop.begins), hop.from)?;
    add_counted(out, b" waits for t", hop.to)
}

impl<'t> Scene<'t> {
    #[tactic(auto, unfolding(crate::specs::Frame::name_words))]
    fn add_name_words(&self, out: &mut Vec<u8>, lane: Lane) -> Result<(), NoMemory>
        ensures { OnOk result (out.new.items ≡ out.old.items ++ name_words self.now lane) }
    {
        add_counted(out, b"t", lane.id)?;
        add_event_words(out, lane.event)?;
        add_procedure_words(out, procedure_of(lane.id, &self.names))
    }

    #[tactic(auto, unfolding(crate::specs::Frame::name_text, crate::specs::Frame::name_closed))]
    fn add_name(&self, out: &mut Vec<u8>, lane: Lane) -> Result<(), NoMemory>
        ensures { OnOk result (out.new.items ≡ out.old.items ++ name_text self.now lane) }
    {
        let y = self.y_of(lane.id) + FOOT;
        add_label(out, b"name", 4, y)?;
        self.add_name_words(out, lane)?;
        add_text(out, b"</text>\n")
    }

    fn add_all_names(&self, out: &mut Vec<u8>) -> Result<(), NoMemory>
        ensures { OnOk result
            (out.new.items
            ≡ out.old.items ++ flat_map (λ lane. name_text self.now lane) self.now.lanes) }
    {
        for lane in self.lanes.as_slice() {
            self.add_name(out, *lane)?;
        }
        Ok(())
    }

    #[tactic(auto, unfolding(crate::specs::Frame::names_text))]
    fn add_names(&self, out: &mut Vec<u8>) -> Result<(), NoMemory>
        ensures { OnOk result (out.new.items ≡ out.old.items ++ names_text self.now) }
    {
        add_text(out, names_open())?;
        self.add_all_names(out)?;
        add_text(out, names_closed())
    }

    // The number of a tenth call.
    fn tenth(&self, n: u64) -> u64
        requires { n < most_tenths }
        ensures { result ≡ tenth self.now n }
    {
        (self.base / 10 + 1 + n).saturating_mul(10)
    }

    #[tactic(auto, unfolding(crate::specs::Frame::number_text, crate::specs::Frame::name_closed))]
    fn add_call_number(&self, out: &mut Vec<u8>, n: u64) -> Result<(), NoMemory>
        requires { n < most_tenths }
        ensures { OnOk result (out.new.items ≡ out.old.items ++ number_text self.now n) }
    {
        let call = self.tenth(n);
        let x = self.x_of(Moment { call, late: false });
        add_label(out, b"number", x, 12)?;
        add_number(out, call)?;
        add_text(out, b"</text>\n")
    }

    // How many tenth calls are drawn.
    fn tenths(&self) -> u64
        ensures value { result ≡ tenths self.now }
        ensures most { result ≤ most_tenths }
    {
        let before = self.base / 10;
        (self.time.call.saturating_sub(1) / 10)
            .saturating_sub(before)
            .min(MOST_TENTHS)
    }

    fn add_all_numbers(&self, out: &mut Vec<u8>) -> Result<(), NoMemory>
        ensures { OnOk result
            (out.new.items ≡ out.old.items ++ each_from (number_text self.now) 0 (tenths self.now)) }
    {
        let count = self.tenths();
        for n in 0..count {
            self.add_call_number(out, n)?;
        }
        Ok(())
    }

    #[tactic(auto, unfolding(crate::specs::Frame::numbers_text))]
    fn add_numbers(&self, out: &mut Vec<u8>) -> Result<(), NoMemory>
        ensures { OnOk result (out.new.items ≡ out.old.items ++ numbers_text self.now) }
    {
        add_text(out, numbers_open())?;
        self.add_all_numbers(out)?;
        add_text(out, numbers_closed())
    }

    fn width(&self) -> u64
        ensures value { result ≡ width_of self.now }
        ensures most { result ≤ most_right + end_width }
    {
        self.x_of(self.time) + END_WIDTH
    }

    fn height(&self) -> u64
        ensures value { result ≡ height_of self.now }
        ensures most { result ≤ most_down + 8 }
    {
        self.y_of(NOBODY) + 8
    }

    #[tactic(auto, unfolding(crate::specs::Frame::size_text))]
    fn add_size(&self, out: &mut Vec<u8>) -> Result<(), NoMemory>
        ensures { OnOk result (out.new.items ≡ out.old.items ++ size_text self.now) }
    {
        add_counted(out, size_open(), self.width())?;
        add_counted(out, height_open(), self.height())?;
        add_counted(out, paper_open(), self.height())?;
        add_text(out, size_closed())
    }

    #[tactic(auto, unfolding(crate::specs::Frame::strip_text))]
    fn add_strip(&self, out: &mut Vec<u8>) -> Result<(), NoMemory>
        ensures { OnOk result (out.new.items ≡ out.old.items ++ strip_text self.now) }
    {
        add_counted(out, strip_open(), self.width())?;
        add_counted(out, b" ", self.height())?;
        add_text(out, strip_closed())
    }

    // The whole picture for print.
    #[tactic(auto, unfolding(crate::specs::Frame::sheet_text))]
    fn add_sheet(&self, out: &mut Vec<u8>) -> Result<(), NoMemory>
        ensures { OnOk result (out.new.items ≡ out.old.items ++ sheet_text self.now) }
    {
        let height = self.height();
        add_counted(out, sheet_open(), height)?;
        add_counted(out, b" ", self.width() + NAMES_WIDTH)?;
        add_counted(out, sheet_turned(), height)?;
        add_text(out, sheet_closed())
    }

    #[tactic(auto, unfolding(crate::specs::Frame::more_text))]
    fn add_more(&self, out: &mut Vec<u8>) -> Result<(), NoMemory>
        ensures { OnOk result (out.new.items ≡ out.old.items ++ more_text self.now) }
    {
        if !self.more {
            return Ok(());
        }
        add_counted(out, more_open(), self.last)?;
        add_text(out, more_closed())
    }

    fn add_all_hops(&self, out: &mut Vec<u8>) -> Result<(), NoMemory>
        ensures { OnOk result
            (out.new.items ≡ out.old.items ++ flat_map (λ hop. hop_text hop) self.now.hops) }
    {
        for hop in self.hops.as_slice() {
            add_hop(out, *hop)?;
        }
        Ok(())
    }

    #[tactic(auto, unfolding(crate::specs::Frame::wait_line, crate::specs::Frame::wait_front))]
    fn add_wait_line(&self, out: &mut Vec<u8>, lane: Lane) -> Result<(), NoMemory>
        ensures { OnOk result (out.new.items ≡ out.old.items ++ wait_line self.now lane) }
    {
        if !is_due(lane) {
            return Ok(());
        }
        add_counted(out, b"<br/>t", lane.id)?;
        add_text(out, b" ")?;
        self.add_lane_waits(out, lane)
    }

    fn add_all_waits(&self, out: &mut Vec<u8>) -> Result<(), NoMemory>
        ensures { OnOk result
            (out.new.items
            ≡ out.old.items ++ flat_map (λ lane. wait_line self.now lane) self.now.lanes) }
    {
        for lane in self.lanes.as_slice() {
            self.add_wait_line(out, *lane)?;
        }
        Ok(())
    }

    // At the end of the trace, who waits for whom.
    #[tactic(auto, unfolding(crate::specs::Frame::stuck_text))]
    fn add_stuck(&self, out: &mut Vec<u8>) -> Result<(), NoMemory>
        ensures { OnOk result (out.new.items ≡ out.old.items ++ stuck_text self.now) }
    {
        if self.more {
            return Ok(());
        }
        add_text(out, stuck_open())?;
        self.add_all_hops(out)?;
        add_text(out, stuck_between())?;
        self.add_all_waits(out)?;
        add_text(out, stuck_closed())
    }

    #[tactic(auto, unfolding(crate::specs::Frame::end_text))]
    fn add_end(&self, out: &mut Vec<u8>) -> Result<(), NoMemory>
        ensures { OnOk result (out.new.items ≡ out.old.items ++ end_text self.now) }
    {
        add_group_open(out)?;
        self.add_shapes(out, &[])?;
        add_group_closed(out)
    }

    // The picture's end, and what moves with it.
    #[tactic(auto, unfolding(crate::specs::Frame::around))]
    fn add_around(&self, out: &mut Vec<u8>) -> Result<(), NoMemory>
        ensures { OnOk result (out.new.items ≡ out.old.items ++ around self.now) }
    {
        self.add_end(out)?;
        self.add_names(out)?;
        self.add_numbers(out)?;
        self.add_size(out)
    }

    // The strip above it, and the sheet.
    #[tactic(auto, unfolding(crate::specs::Frame::beyond))]
    fn add_beyond(&self, out: &mut Vec<u8>) -> Result<(), NoMemory>
        ensures { OnOk result (out.new.items ≡ out.old.items ++ beyond self.now) }
    {
        self.add_strip(out)?;
        self.add_more(out)?;
        self.add_stuck(out)?;
        self.add_sheet(out)?;
        add_text(out, script())
    }

    /// All that comes after the last line.
    #[tactic(auto, unfolding(crate::specs::Frame::tail))]
    pub(crate) fn add_tail(&self, out: &mut Vec<u8>) -> Result<(), NoMemory>
        ensures { OnOk result (out.new.items ≡ out.old.items ++ tail self.now) }
    {
        self.add_around(out)?;
        self.add_beyond(out)?;
        add_text(out, page_closed())
    }
}
