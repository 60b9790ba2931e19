//! The constant parts of a picture, as the files of picture/ have them: tests/gate/picture_parts.py writes this.

/// The style of all pictures.
pub(crate) const STYLE: &str =
    "text{font-family:\"DejaVu Sans Mono\",Menlo,Consolas,\"Liberation Mono\",monospace;font-size:11px;fill:#111}\n\
.verb{font-weight:bold}.rest,.store{fill:#111}.store{font-weight:bold}\n\
.verb,.rest,.event,.store,.saw,.of-what,.stage{paint-order:stroke;stroke:#fff;stroke-width:3px;stroke-linejoin:round}\n\
.event,.gap,.name,.key,.stage,.white,.in,.in-w,.thin{font-size:10px}\n\
.event{fill:#444}.gap{fill:#555;text-anchor:middle}.name{fill:#444}.key{fill:#111}\n\
.strong{font-weight:bold}.lane{font-size:14px;font-weight:bold}.thin{fill:#444}\n\
.in,.in-w{text-anchor:middle}.white,.in-w{fill:#fff;font-weight:bold}.in{font-weight:bold}\n\
.no{font-style:italic}.saw{fill:#8a2b00;font-weight:bold}.of-what{fill:#8a2b00;font-style:italic}\n\
path{fill:none;stroke:#111;stroke-width:1}\n\
.axis,.far{stroke:#555}.far{stroke-dasharray:2 3}.rule{stroke:#ddd}.ground{stroke:#999}.idle{stroke:#888}\n\
.pole{stroke:#777}.chain{stroke:#111;stroke-width:3}.drop{stroke:#111;stroke-width:1.5}\n\
.frees{stroke:#111;stroke-width:1.5;stroke-dasharray:4 2}.tip,.sign,.back{fill:#111;stroke:none}\n\
.cross{stroke:#a51d00;stroke-width:4;filter:drop-shadow(0 0 1px #fff) drop-shadow(0 0 1px #fff)}.diamond,.ring,.pill-o{fill:#fff;stroke:#111;stroke-width:1.5}\n\
.pill{fill:#111;stroke:#111;stroke-width:1.5}.no-sign{stroke:#a51d00;stroke-width:2;fill:#fff}\n\
.glass{fill:#fff;stroke:#111;stroke-width:1.5}\n\
.open{stroke:#8a2b00;stroke-width:2}.of{stroke:#8a2b00;stroke-dasharray:1 3}\n\
.shade{fill:#efefe6}\n\
.doorway{fill:url(#doorway);stroke:#1f6fa8}.waiting{fill:url(#waiting);stroke:#9a6400}\n\
.inside{fill:#0b5c43;stroke:#0b5c43}.leaving{fill:#8fc7b2;stroke:#0b5c43}\n\
.settling{fill:url(#settling);stroke:#a51d00}.down{fill:#fff;stroke:#555;stroke-dasharray:4 3}\n\
.guide{stroke:#ddd}.cell{fill:#444}\n\
.read{fill:#fff;stroke:#555}.write,.update{fill:#cfe2f5;stroke:#1f5f99;stroke-width:2}\n\
.write.whole{fill:#1f5f99}.overlapped.whole{fill:#8a2b00}.update.whole{fill:#111;stroke:#111}\n\
.overlapped{fill:#fff3ea;stroke:#8a2b00;stroke-width:3}.unended{stroke-dasharray:5 3}\n\
.tie{stroke:#8a2b00;stroke-dasharray:2 2;stroke-width:1.5}.dot{fill:#8a2b00;stroke:none}\n\
.wave{stroke-width:2}.unsure{fill:#cfe2f5;stroke:#1f5f99;stroke-dasharray:2 2}\n\
.bad{fill:#c00;fill-opacity:.15}.named{fill:none;stroke:#c00;stroke-width:2}\n\
.because{font-size:10px;font-weight:bold;fill:#a51d00;paint-order:stroke;stroke:#fff;stroke-width:3px;stroke-linejoin:round}\n\
.blame{stroke:#c00;stroke-width:2}.blame-tip{fill:#c00;stroke:none}\n\
.ruling{fill:#fff;stroke:#a51d00;stroke-width:1.5}.sentence{font-size:13px;font-weight:bold;fill:#a51d00}\n\
.ruling.kept{stroke:#555}.kept+.sentence{fill:#111}";

/// The style of a page, in addition to that of pictures.
pub(crate) const PAGE_STYLE: &str = "html{background:#fff;color:#111}\n\
body{font:15px/1.4 \"DejaVu Sans\",Verdana,sans-serif;margin:0 auto;max-width:1216px;padding:8px 8px 9.5em}\n\
h1{font-size:18px;margin:.3em 0}svg{display:block;width:100%;height:auto}.band{margin:0 0 10px}\n\
details{margin:.3em 0;position:sticky;top:0;background:#fff;border-bottom:1px solid #111;z-index:1}summary{cursor:pointer}\n\
ol{font:12px/1.35 \"DejaVu Sans Mono\",Menlo,Consolas,monospace;margin:.2em 0;padding-left:3.5em;max-height:8.1em;overflow:auto}\n\
li{white-space:pre-wrap}li:last-child{list-style:none}li.on{background:#111;color:#fff;font-weight:bold}li::marker{color:#555}\n\
#now{position:fixed;left:0;right:0;bottom:0;background:#fff;border-top:2px solid #111;padding:6px 12px}\n\
#now div{max-width:1200px;margin:auto}#now input{width:100%;margin:0}\n\
#now output{display:block;font:13px/1.45 \"DejaVu Sans Mono\",Menlo,Consolas,monospace;white-space:pre-wrap}\n\
#now small{float:right;color:#555;margin-left:1em}\n\
#now b{display:inline-block;width:6.2em;font-weight:normal;color:#555}\n\
g.m{cursor:pointer}g.m.on text{text-decoration:underline}g.m:focus-visible{outline:2px solid #111}\n\
.cur{stroke:#c00;stroke-width:2;opacity:.5;pointer-events:none}\n\
h2{font-size:13px;margin:.2em 0;position:sticky;left:0;width:max-content}.frame{overflow-x:auto}\n\
@media screen and (max-width:1199px){svg{width:1470px}.band .lane,.band .thin,.band .name{paint-order:stroke;stroke:#fff;stroke-width:6px;stroke-linejoin:round}}\n\
@media (max-width:699px){#now small{float:none;display:block;margin:0}}\n\
@media (max-height:520px){details{position:static}}\n\
@media print{#now,.cur{display:none}.frame{overflow:visible}g.m.on text{text-decoration:none}details{position:static;border:0}li.on{background:none;color:inherit;font-weight:normal}ol{max-height:none;font-size:10px;columns:2;column-gap:3.5em}h1{font-size:15px}body{padding:0;max-width:none}.band{break-inside:avoid}h2{break-after:avoid}*{print-color-adjust:exact;-webkit-print-color-adjust:exact}}";

/// The script of a page.
pub(crate) const SCRIPT: &str = "(function(){\n\
var marks=[].slice.call(document.querySelectorAll('g.m')),at=document.getElementById('at'),\n\
said=document.getElementById('said'),list=document.querySelector('ol'),items=[].slice.call(list.children),stores=[],queues=[],events=[],last=0,\n\
store=at.getAttribute('data-s'),queue='',cur=document.createElementNS('http://www.w3.org/2000/svg','path'),k=-1,now=0,\n\
shown={},stages={},\n\
after={call:'doorway',wait:'waiting',enter:'inside',leave:'leaving',withdraw:'leaving',answer:'idle',fail:'failed',down:'down',restart:'idle'},\n\
keys=document.createElement('small'),lines=items.filter(function(item){return !/^[ \\t]*(#|$)/.test(item.textContent);});\n\
marks.forEach(function(m){var s=m.getAttribute('data-s'),q=m.getAttribute('data-q'),t=text(m);\n\
if(s!==null)store=s;if(q!==null)queue=q;stores.push(store);queues.push(queue);\n\
if(/^[0-9]/.test(t)){last=parseInt(t,10);staged(t.split(' '));}events.push(last);\n\
m.setAttribute('aria-label',t+Object.keys(stages).map(function(p){return ', '+p+' '+stages[p];}).join(''));});\n\
function staged(w){if(after[w[2]]&&!(w[2]==='leave'&&stages[w[1]]==='failed'))stages[w[1]]=after[w[2]];}\n\
keys.textContent='keys: Left and Right by events, Up and Down by marks';said.parentNode.insertBefore(keys,said);\n\
[].slice.call(document.querySelectorAll('g.r')).forEach(function(g){var t=text(g),to=/from event [0-9]+ to ([0-9]+)/.exec(t),\n\
e=to?+to[1]:parseInt(t,10);shown[e]=g;g.addEventListener('mouseenter',function(){event(e);});});\n\
var first=events.concat(Object.keys(shown).map(Number)).reduce(function(a,b){return Math.min(a,b);},Infinity);\n\
last=Object.keys(shown).reduce(function(a,e){return Math.max(a,+e);},last);\n\
cur.setAttribute('class','cur');\n\
function text(m){return m.querySelector('title').textContent;}\n\
function place(m){return +m.getAttribute('data-x');}\n\
function source(m){return +m.getAttribute('data-l');}\n\
var heads=lines.filter(function(item){return /^[ \\t]*(bakery|processes|tickets|stamps|slots)[ \\t]/.test(item.textContent);}).length,\n\
skip=lines.some(function(item){return item.textContent==='(entries)';})?1:6-heads;\n\
function by(m){return lines[source(m)-skip];}\n\
function spelled(item){var words=item.textContent;return (words[0]==='('?'':items.indexOf(item)+1+': ')+words;}\n\
function line(name,value){var b=document.createElement('b');b.textContent=name;said.appendChild(b);\n\
said.appendChild(document.createTextNode(value+'\\n'));}\n\
function spot(g){var words=g.querySelector('text'),box=g.querySelector('rect');\n\
return words?words.getAttribute('x')-3:box?+box.getAttribute('x')+ +box.getAttribute('width'):-9;}\n\
function cursor(svg,x){cur.setAttribute('d','M'+x+' 0V'+svg.viewBox.baseVal.height);svg.appendChild(cur);}\n\
function go(n,look){if(n<0||n>=marks.length)return;if(k>=0){marks[k].classList.remove('on');\n\
by(marks[k]).classList.remove('on');by(marks[k]).removeAttribute('aria-current');}\n\
k=n;now=events[n];at.value=n;var m=marks[n],svg=m.ownerSVGElement,item=by(m);\n\
m.classList.add('on');item.classList.add('on');item.setAttribute('aria-current','true');cursor(svg,place(m));\n\
list.scrollTop=item.offsetTop-list.offsetTop-40;\n\
said.textContent='';line('line',text(m));if(item.textContent!=='(entries)')line('made by',spelled(item));\n\
line('store',stores[n]);\n\
line('in line',queues[n]||'none');at.setAttribute('aria-valuetext',text(m));\n\
if(look)show(svg,place(m));}\n\
function show(svg,x){var r=svg.getBoundingClientRect(),to=x*r.width/1200;\n\
if(r.top<list.getBoundingClientRect().bottom||r.bottom>innerHeight-150)svg.scrollIntoView({block:'center'});\n\
if(to<frame.scrollLeft+70||to>frame.scrollLeft+frame.clientWidth-40)frame.scrollLeft=to-frame.clientWidth/2;hold();}\n\
function event(e){var n=0,m,then,x;e=Math.max(first,Math.min(e,last));\n\
while(n<marks.length-1&&!(events[n+1]>e))n++;while(n>0&&events[n-1]===e)n--;go(n,true);\n\
if(shown[e]&&!(events[n]<=e))said.textContent='';\n\
if(shown[e])line('access',text(shown[e]));if(events[n]===e)return;now=e;m=marks[n];then=marks[n+1];\n\
if(shown[e]){var own=shown[e].ownerSVGElement;cursor(own,spot(shown[e]));show(own,spot(shown[e]));at.setAttribute('aria-valuetext',text(shown[e]));return;}\n\
if(!m)return;var side=events[n]>e?'before':'after';x=place(m);\n\
if(then&&then.ownerSVGElement===m.ownerSVGElement)x+=(place(then)-x)*(e-events[n])/(events[n+1]-events[n]);\n\
cursor(m.ownerSVGElement,Math.round(x));show(m.ownerSVGElement,x);line('event',e+' has no mark; it comes '+side+' that line');\n\
at.setAttribute('aria-valuetext','event '+e+', '+side+' '+text(m));}\n\
at.max=marks.length-1;at.addEventListener('input',function(){go(+at.value,true);});\n\
at.addEventListener('keydown',function(k){var by={ArrowLeft:-1,ArrowRight:1}[k.key];\n\
if(by){k.preventDefault();event(now+by);}});\n\
marks.forEach(function(m,n){m.addEventListener('mouseenter',function(){go(n);});\n\
m.addEventListener('click',function(){go(n);at.focus();history.replaceState(null,'','#e'+events[n]);});});\n\
function named(look){var n=parseInt(location.hash.replace(/^#e?/,''),10);if(n>=0)event(n);else go(0,look);}\n\
function framed(svgs){var f=document.createElement('div');f.className='frame';\n\
svgs[0].parentNode.insertBefore(f,svgs[0]);svgs.forEach(function(svg){f.appendChild(svg);});return f;}\n\
var bands=[].slice.call(document.querySelectorAll('.band')),frame=framed(bands),ends=new Map(),from=isFinite(first)?first:0,\n\
names=frame.querySelectorAll('.lane,.thin,.name');\n\
names.forEach(function(name){name.parentNode.appendChild(name);});\n\
framed([document.querySelector('svg')]);\n\
marks.forEach(function(m,n){ends.set(m.ownerSVGElement,events[n]);\n\
if(/^[0-9]/.test(text(m))&&events[n]!==events[n-1])m.id='e'+events[n];});\n\
Object.keys(shown).forEach(function(e){var b=shown[e].ownerSVGElement;if(!(ends.get(b)>=+e))ends.set(b,+e);});\n\
bands.forEach(function(band,n){var h=document.createElement('h2'),to=ends.get(band)||0;\n\
h.textContent='Part '+(n+1)+': '+Math.min(from,to)+' to '+to;frame.insertBefore(h,band);from=to+1;});\n\
function hold(){var moved='translate('+Math.round(frame.scrollLeft*1200/bands[0].getBoundingClientRect().width)+' 0)';\n\
names.forEach(function(name){name.setAttribute('transform',moved);});}\n\
frame.addEventListener('scroll',hold);\n\
window.addEventListener('hashchange',function(){named(true);});\n\
at.focus({preventScroll:true});\n\
named(location.hash.length>1);\n\
})();";

/// The script of the page of a trace, which has no store and no line of processes.
pub(crate) const TRACE_SCRIPT: &str = "(function(){\n\
var marks=[].slice.call(document.querySelectorAll('g.m')),at=document.getElementById('at'),\n\
said=document.getElementById('said'),list=document.querySelector('ol'),items=[].slice.call(list.children),stores=[],queues=[],events=[],last=0,\n\
store=at.getAttribute('data-s'),queue='',cur=document.createElementNS('http://www.w3.org/2000/svg','path'),k=-1,now=0,\n\
shown={},stages={},\n\
after={call:'doorway',wait:'waiting',enter:'inside',leave:'leaving',withdraw:'leaving',answer:'idle',fail:'failed',down:'down',restart:'idle'},\n\
keys=document.createElement('small'),lines=items.filter(function(item){return !/^[ \\t]*(#|$)/.test(item.textContent);});\n\
marks.forEach(function(m){var s=m.getAttribute('data-s'),q=m.getAttribute('data-q'),t=text(m);\n\
if(s!==null)store=s;if(q!==null)queue=q;stores.push(store);queues.push(queue);\n\
if(/^[0-9]/.test(t)){last=parseInt(t,10);staged(t.split(' '));}events.push(last);\n\
m.setAttribute('aria-label',t+Object.keys(stages).map(function(p){return ', '+p+' '+stages[p];}).join(''));});\n\
function staged(w){if(after[w[2]]&&!(w[2]==='leave'&&stages[w[1]]==='failed'))stages[w[1]]=after[w[2]];}\n\
keys.textContent='keys: Left and Right by events, Up and Down by marks';said.parentNode.insertBefore(keys,said);\n\
[].slice.call(document.querySelectorAll('g.r')).forEach(function(g){var t=text(g),to=/from event [0-9]+ to ([0-9]+)/.exec(t),\n\
e=to?+to[1]:parseInt(t,10);shown[e]=g;g.addEventListener('mouseenter',function(){event(e);});});\n\
var first=events.concat(Object.keys(shown).map(Number)).reduce(function(a,b){return Math.min(a,b);},Infinity);\n\
last=Object.keys(shown).reduce(function(a,e){return Math.max(a,+e);},last);\n\
cur.setAttribute('class','cur');\n\
function text(m){return m.querySelector('title').textContent;}\n\
function place(m){return +m.getAttribute('data-x');}\n\
function source(m){return +m.getAttribute('data-l');}\n\
var heads=lines.filter(function(item){return /^[ \\t]*(bakery|processes|tickets|stamps|slots)[ \\t]/.test(item.textContent);}).length,\n\
skip=lines.some(function(item){return item.textContent==='(entries)';})?1:6-heads;\n\
function by(m){return lines[source(m)-skip];}\n\
function spelled(item){var words=item.textContent;return (words[0]==='('?'':items.indexOf(item)+1+': ')+words;}\n\
function line(name,value){var b=document.createElement('b');b.textContent=name;said.appendChild(b);\n\
said.appendChild(document.createTextNode(value+'\\n'));}\n\
function spot(g){var words=g.querySelector('text'),box=g.querySelector('rect');\n\
return words?words.getAttribute('x')-3:box?+box.getAttribute('x')+ +box.getAttribute('width'):-9;}\n\
function cursor(svg,x){cur.setAttribute('d','M'+x+' 0V'+svg.viewBox.baseVal.height);svg.appendChild(cur);}\n\
function go(n,look){if(n<0||n>=marks.length)return;if(k>=0){marks[k].classList.remove('on');\n\
by(marks[k]).classList.remove('on');by(marks[k]).removeAttribute('aria-current');}\n\
k=n;now=events[n];at.value=n;var m=marks[n],svg=m.ownerSVGElement,item=by(m);\n\
m.classList.add('on');item.classList.add('on');item.setAttribute('aria-current','true');cursor(svg,place(m));\n\
list.scrollTop=item.offsetTop-list.offsetTop-40;\n\
said.textContent='';line('line',text(m));if(item.textContent!=='(entries)')line('made by',spelled(item));\n\
at.setAttribute('aria-valuetext',text(m));\n\
if(look)show(svg,place(m));}\n\
function show(svg,x){var r=svg.getBoundingClientRect(),to=x*r.width/1200;\n\
if(r.top<list.getBoundingClientRect().bottom||r.bottom>innerHeight-150)svg.scrollIntoView({block:'center'});\n\
if(to<frame.scrollLeft+70||to>frame.scrollLeft+frame.clientWidth-40)frame.scrollLeft=to-frame.clientWidth/2;hold();}\n\
function event(e){var n=0,m,then,x;e=Math.max(first,Math.min(e,last));\n\
while(n<marks.length-1&&!(events[n+1]>e))n++;while(n>0&&events[n-1]===e)n--;go(n,true);\n\
if(shown[e]&&!(events[n]<=e))said.textContent='';\n\
if(shown[e])line('access',text(shown[e]));if(events[n]===e)return;now=e;m=marks[n];then=marks[n+1];\n\
if(shown[e]){var own=shown[e].ownerSVGElement;cursor(own,spot(shown[e]));show(own,spot(shown[e]));at.setAttribute('aria-valuetext',text(shown[e]));return;}\n\
if(!m)return;var side=events[n]>e?'before':'after';x=place(m);\n\
if(then&&then.ownerSVGElement===m.ownerSVGElement)x+=(place(then)-x)*(e-events[n])/(events[n+1]-events[n]);\n\
cursor(m.ownerSVGElement,Math.round(x));show(m.ownerSVGElement,x);line('event',e+' has no mark; it comes '+side+' that line');\n\
at.setAttribute('aria-valuetext','event '+e+', '+side+' '+text(m));}\n\
at.max=marks.length-1;at.addEventListener('input',function(){go(+at.value,true);});\n\
at.addEventListener('keydown',function(k){var by={ArrowLeft:-1,ArrowRight:1}[k.key];\n\
if(by){k.preventDefault();event(now+by);}});\n\
marks.forEach(function(m,n){m.addEventListener('mouseenter',function(){go(n);});\n\
m.addEventListener('click',function(){go(n);at.focus();history.replaceState(null,'','#e'+events[n]);});});\n\
function named(look){var n=parseInt(location.hash.replace(/^#e?/,''),10);if(n>=0)event(n);else go(0,look);}\n\
function framed(svgs){var f=document.createElement('div');f.className='frame';\n\
svgs[0].parentNode.insertBefore(f,svgs[0]);svgs.forEach(function(svg){f.appendChild(svg);});return f;}\n\
var bands=[].slice.call(document.querySelectorAll('.band')),frame=framed(bands),ends=new Map(),from=isFinite(first)?first:0,\n\
names=frame.querySelectorAll('.lane,.thin,.name');\n\
names.forEach(function(name){name.parentNode.appendChild(name);});\n\
framed([document.querySelector('svg')]);\n\
marks.forEach(function(m,n){ends.set(m.ownerSVGElement,events[n]);\n\
if(/^[0-9]/.test(text(m))&&events[n]!==events[n-1])m.id='e'+events[n];});\n\
Object.keys(shown).forEach(function(e){var b=shown[e].ownerSVGElement;if(!(ends.get(b)>=+e))ends.set(b,+e);});\n\
bands.forEach(function(band,n){var h=document.createElement('h2'),to=ends.get(band)||0;\n\
h.textContent='Part '+(n+1)+': '+Math.min(from,to)+' to '+to;frame.insertBefore(h,band);from=to+1;});\n\
function hold(){var moved='translate('+Math.round(frame.scrollLeft*1200/bands[0].getBoundingClientRect().width)+' 0)';\n\
names.forEach(function(name){name.setAttribute('transform',moved);});}\n\
frame.addEventListener('scroll',hold);\n\
window.addEventListener('hashchange',function(){named(true);});\n\
at.focus({preventScroll:true});\n\
named(location.hash.length>1);\n\
})();";

/// The patterns of the bars.
pub(crate) const PATTERNS: &str =
    "<defs><pattern id=\"doorway\" width=\"6\" height=\"6\" patternUnits=\"userSpaceOnUse\"><rect width=\"6\" height=\"6\" fill=\"#dceefb\"/><path d=\"M-1 1l2 -2M0 6l6 -6M5 7l2 -2\" style=\"stroke:#5aa5d6\"/></pattern><pattern id=\"waiting\" width=\"6\" height=\"6\" patternUnits=\"userSpaceOnUse\"><rect width=\"6\" height=\"6\" fill=\"#fff1cf\"/><circle cx=\"3\" cy=\"3\" r=\"1.1\" fill=\"#b57a10\"/></pattern><pattern id=\"settling\" width=\"6\" height=\"6\" patternUnits=\"userSpaceOnUse\"><rect width=\"6\" height=\"6\" fill=\"#fde0d4\"/><path d=\"M0 0l6 6M6 0l-6 6\" style=\"stroke:#d0592f\"/></pattern></defs>";
